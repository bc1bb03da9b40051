// The random access desk: each call is that of the crate `slt_desk`, with the same promise.

ghost use Rattle.slt_desk.specs.Outcome.{DeskServe, DeskToAich, DeskToMessage};

#[unsafe(no_mangle)]
pub extern "C" fn slt_desk_serve(
    last: &mut usize,
    heard: u16,
    available: u16,
    n: usize,
    values: &mut [i32],
) -> u64
    ensures { DeskServe last.old heard available n values.old result last.new values.new }
{
    slt_desk::slt_desk_serve(last, heard, available, n, values)
}

#[unsafe(no_mangle)]
pub extern "C" fn slt_desk_to_aich(timing: usize) -> u64
    ensures { DeskToAich timing result }
{
    slt_desk::slt_desk_to_aich(timing)
}

#[unsafe(no_mangle)]
pub extern "C" fn slt_desk_to_message(timing: usize) -> u64
    ensures { DeskToMessage timing result }
{
    slt_desk::slt_desk_to_message(timing)
}
