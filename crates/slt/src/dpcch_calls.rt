// The uplink DPCCH: each call is that of the crate `slt_dpcch`, with the same promise.

ghost use Rattle.slt_dpcch.specs.Outcome.{DpcchMap, DpcchRead, DpcchFrameMap, DpcchFrameRead};

#[unsafe(no_mangle)]
pub extern "C" fn slt_dpcch_map(
    format: usize,
    slot: usize,
    tpc: usize,
    tfci: &[u8],
    fbi: &[u8],
    out: &mut [u8],
) -> u64
    ensures { DpcchMap format slot tpc tfci.now fbi.now out.old result out.new }
{
    slt_dpcch::slt_dpcch_map(format, slot, tpc, tfci, fbi, out)
}

#[unsafe(no_mangle)]
pub extern "C" fn slt_dpcch_read(
    format: usize,
    slot: usize,
    run: &[u8],
    tfci: &mut [u8],
    fbi: &mut [u8],
) -> u64
    ensures { DpcchRead format slot run.now tfci.old fbi.old result tfci.new fbi.new }
{
    slt_dpcch::slt_dpcch_read(format, slot, run, tfci, fbi)
}

#[unsafe(no_mangle)]
pub extern "C" fn slt_dpcch_frame_map(
    format: usize,
    tfci: &[u8],
    fbi: &[u8],
    out: &mut [u8],
    commands: &[u8],
) -> u64
    ensures { DpcchFrameMap format tfci.now fbi.now out.old commands.now result out.new }
{
    slt_dpcch::slt_dpcch_frame_map(format, tfci, fbi, out, commands)
}

#[unsafe(no_mangle)]
pub extern "C" fn slt_dpcch_frame_read(
    format: usize,
    frame: &[u8],
    tfci: &mut [u8],
    fbi: &mut [u8],
    commands: &mut [u8],
) -> u64
    ensures { DpcchFrameRead format frame.now tfci.old fbi.old commands.old result tfci.new fbi.new commands.new }
{
    slt_dpcch::slt_dpcch_frame_read(format, frame, tfci, fbi, commands)
}
