// DPCH frames for a C host: each call is that of the crates `frame_map` and `frame_read`, with the answer packed in one number (docs/INTERFACE.md).
#![tactic(auto)]

ghost use Rattle.slt_frame.specs.Outcome.{FrameMap, FrameRead};

use packed::done;

#[unsafe(no_mangle)]
pub extern "C" fn slt_frame_map(
    format: usize,
    data: &[u8],
    tfci: &[u8],
    out: &mut [u8],
    commands: &[u8],
) -> u64
    ensures { FrameMap format «data».now tfci.now out.old commands.now result out.new }
{
    done(frame_map::map(format, data, tfci, out, commands))
}

#[unsafe(no_mangle)]
pub extern "C" fn slt_frame_read(
    format: usize,
    frame: &[u8],
    data: &mut [u8],
    tfci: &mut [u8],
    commands: &mut [u8],
) -> u64
    ensures { FrameRead format frame.now «data».old tfci.old commands.old result «data».new tfci.new commands.new }
{
    done(frame_read::read(format, frame, data, tfci, commands))
}
