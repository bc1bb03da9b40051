// DPCH slots on two antennas: each call is that of the crate `slt_antenna`, with the same promise.

ghost use Rattle.slt_antenna.specs.Outcome.{SlotMapAntenna, SlotReadAntennas};

#[unsafe(no_mangle)]
pub extern "C" fn slt_slot_map_antenna(
    format: usize,
    slot: usize,
    antenna: usize,
    tpc: usize,
    data: &[u8],
    tfci: &[u8],
    out: &mut [u8],
) -> u64
    ensures { SlotMapAntenna format slot antenna tpc «data».now tfci.now out.old result out.new }
{
    slt_antenna::slt_slot_map_antenna(format, slot, antenna, tpc, data, tfci, out)
}

#[unsafe(no_mangle)]
pub extern "C" fn slt_slot_read_antennas(
    format: usize,
    slot: usize,
    first: &[u8],
    second: &[u8],
    data: &mut [u8],
    tfci: &mut [u8],
) -> u64
    ensures { SlotReadAntennas format slot first.now second.now «data».old tfci.old result «data».new tfci.new }
{
    slt_antenna::slt_slot_read_antennas(format, slot, first, second, data, tfci)
}
