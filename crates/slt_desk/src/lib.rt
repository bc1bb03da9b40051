// The random access desk for a C host: each call is that of the crate `desk`, with the answer packed in one number (docs/INTERFACE.md).
#![tactic(auto)]

ghost use Rattle.slt_desk.specs.Outcome.{DeskServe, DeskToAich, DeskToMessage};

use desk::Desk;
use packed::{answer, done};

// The desk comes and goes through its pointer.
#[unsafe(no_mangle)]
pub extern "C" fn slt_desk_serve(
    last: &mut usize,
    heard: u16,
    available: u16,
    n: usize,
    values: &mut [i32],
) -> u64
    ensures { DeskServe last.old heard available n values.old result last.new values.new }
{
    match desk_serve::serve(Desk { last: *last }, heard, available, n, values) {
        Ok(moved) => {
            *last = moved.last;
            done(Ok(()))
        }
        Err(refusal) => done(Err(refusal)),
    }
}

#[unsafe(no_mangle)]
pub extern "C" fn slt_desk_to_aich(timing: usize) -> u64
    ensures { DeskToAich timing result }
{
    answer(desk::to_aich(timing))
}

#[unsafe(no_mangle)]
pub extern "C" fn slt_desk_to_message(timing: usize) -> u64
    ensures { DeskToMessage timing result }
{
    answer(desk::to_message(timing))
}
