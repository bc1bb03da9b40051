// Wake simulation: each call is that of the crate `slt_wake`, with the same promise.

ghost use Rattle.slt_wake.specs.Outcome.{WakeRun, WakeStep};

use wake::Tally;

#[unsafe(no_mangle)]
pub extern "C" fn slt_wake_run(
    np: usize,
    pi: usize,
    frames: &[u8],
    read: &mut u32,
    woke: &mut u32,
    next: &mut u32,
) -> u64
    ensures { WakeRun np pi frames.now read.old woke.old next.old result read.new woke.new next.new }
{
    slt_wake::slt_wake_run(np, pi, frames, read, woke, next)
}

#[unsafe(no_mangle)]
pub extern "C" fn slt_wake_step(tally: &mut Tally, np: usize, pi: usize, frame: &[u8]) -> u64
    ensures { WakeStep tally.old np pi frame.now result tally.new }
{
    slt_wake::slt_wake_step(tally, np, pi, frame)
}
