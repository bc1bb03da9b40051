// DPCH slots for a C host: each call is that of the crates `slot_map` and `slot_read`, with the answer packed in one number (docs/INTERFACE.md).
#![tactic(auto)]

ghost use Rattle.slt_slot.specs.Outcome.{SlotMap, SlotRead};

#[unsafe(no_mangle)]
pub extern "C" fn slt_slot_map(
    format: usize,
    slot: usize,
    tpc: usize,
    data: &[u8],
    tfci: &[u8],
    out: &mut [u8],
) -> u64
    ensures { SlotMap format slot tpc «data».now tfci.now out.old result out.new }
{
    packed::done(slot_map::map(format, slot, tpc, data, tfci, out))
}

#[unsafe(no_mangle)]
pub extern "C" fn slt_slot_read(
    format: usize,
    slot: usize,
    run: &[u8],
    data: &mut [u8],
    tfci: &mut [u8],
) -> u64
    ensures { SlotRead format slot run.now «data».old tfci.old result «data».new tfci.new }
{
    packed::answer(slot_read::read(format, slot, run, data, tfci))
}
