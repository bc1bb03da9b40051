// DPCH slots on two antennas for a C host: each call is that of the crates `antenna_map` and `antenna_read`, with the answer packed in one number (docs/INTERFACE.md).
#![tactic(auto)]

ghost use Rattle.slt_antenna.specs.Outcome.{SlotMapAntenna, SlotReadAntennas};

#[unsafe(no_mangle)]
pub extern "C" fn slt_slot_map_antenna(
    format: usize,
    slot: usize,
    antenna: usize,
    tpc: usize,
    data: &[u8],
    tfci: &[u8],
    out: &mut [u8],
) -> u64
    ensures { SlotMapAntenna format slot antenna tpc «data».now tfci.now out.old result out.new }
{
    packed::done(antenna_map::map(format, slot, antenna, tpc, data, tfci, out))
}

#[unsafe(no_mangle)]
pub extern "C" fn slt_slot_read_antennas(
    format: usize,
    slot: usize,
    first: &[u8],
    second: &[u8],
    data: &mut [u8],
    tfci: &mut [u8],
) -> u64
    ensures { SlotReadAntennas format slot first.now second.now «data».old tfci.old result «data».new tfci.new }
{
    packed::answer(antenna_read::read(format, slot, first, second, data, tfci))
}
