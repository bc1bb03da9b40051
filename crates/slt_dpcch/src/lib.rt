// The uplink DPCCH for a C host: each call is that of the crates `dpcch_map`, `dpcch_read`, `dpcch_frame_map` and `dpcch_frame_read`, with the answer packed in one
// number (docs/INTERFACE.md).
#![tactic(auto)]

ghost use Rattle.slt_dpcch.specs.Outcome.{DpcchMap, DpcchRead, DpcchFrameMap, DpcchFrameRead};

use packed::{answer, done};

#[unsafe(no_mangle)]
pub extern "C" fn slt_dpcch_map(
    format: usize,
    slot: usize,
    tpc: usize,
    tfci: &[u8],
    fbi: &[u8],
    out: &mut [u8],
) -> u64
    ensures { DpcchMap format slot tpc tfci.now fbi.now out.old result out.new }
{
    done(dpcch_map::map(format, slot, tpc, tfci, fbi, out))
}

#[unsafe(no_mangle)]
pub extern "C" fn slt_dpcch_read(
    format: usize,
    slot: usize,
    run: &[u8],
    tfci: &mut [u8],
    fbi: &mut [u8],
) -> u64
    ensures { DpcchRead format slot run.now tfci.old fbi.old result tfci.new fbi.new }
{
    answer(dpcch_read::read(format, slot, run, tfci, fbi))
}

#[unsafe(no_mangle)]
pub extern "C" fn slt_dpcch_frame_map(
    format: usize,
    tfci: &[u8],
    fbi: &[u8],
    out: &mut [u8],
    commands: &[u8],
) -> u64
    ensures { DpcchFrameMap format tfci.now fbi.now out.old commands.now result out.new }
{
    done(dpcch_frame_map::map(format, tfci, fbi, out, commands))
}

#[unsafe(no_mangle)]
pub extern "C" fn slt_dpcch_frame_read(
    format: usize,
    frame: &[u8],
    tfci: &mut [u8],
    fbi: &mut [u8],
    commands: &mut [u8],
) -> u64
    ensures { DpcchFrameRead format frame.now tfci.old fbi.old commands.old result tfci.new fbi.new commands.new }
{
    done(dpcch_frame_read::read(format, frame, tfci, fbi, commands))
}
