// Wake simulation for a C host: each call is that of the crates `wake` and `wake_run`, with the answer packed in one number (docs/INTERFACE.md).
#![tactic(auto)]

ghost use Rattle.slt_wake.specs.Outcome.{WakeRun, WakeStep};

use wake::Tally;

// The three numbers come and go through their pointers.
#[unsafe(no_mangle)]
pub extern "C" fn slt_wake_run(
    np: usize,
    pi: usize,
    frames: &[u8],
    read: &mut u32,
    woke: &mut u32,
    next: &mut u32,
) -> u64
    ensures { WakeRun np pi frames.now read.old woke.old next.old result read.new woke.new next.new }
{
    let mut tally = Tally {
        read: *read,
        woke: *woke,
        next: *next,
    };
    let answer = packed::done(wake_run::run(np, pi, frames, &mut tally));
    *read = tally.read;
    *woke = tally.woke;
    *next = tally.next;
    answer
}

// The tally is lent and updated in place.
#[unsafe(no_mangle)]
pub extern "C" fn slt_wake_step(tally: &mut Tally, np: usize, pi: usize, frame: &[u8]) -> u64
    ensures { WakeStep tally.old np pi frame.now result tally.new }
{
    packed::done(wake::frame(np, pi, frame, tally))
}
