// The uplink DPDCH for a C host: each call is that of the crate `dpdch`, with the answer packed in one number (docs/INTERFACE.md).
#![tactic(auto)]

ghost use Rattle.slt_dpdch.specs.Outcome.{DpdchMap, DpdchRead, DpdchFrameMap, DpdchFrameRead};

use packed::done;

#[unsafe(no_mangle)]
pub extern "C" fn slt_dpdch_map(format: usize, data: &[u8], out: &mut [u8]) -> u64
    ensures { DpdchMap format «data».now out.old result out.new }
{
    done(dpdch::map(format, data, out))
}

#[unsafe(no_mangle)]
pub extern "C" fn slt_dpdch_read(format: usize, run: &[u8], data: &mut [u8]) -> u64
    ensures { DpdchRead format run.now «data».old result «data».new }
{
    done(dpdch::read(format, run, data))
}

#[unsafe(no_mangle)]
pub extern "C" fn slt_dpdch_frame_map(format: usize, data: &[u8], out: &mut [u8]) -> u64
    ensures { DpdchFrameMap format «data».now out.old result out.new }
{
    done(dpdch::frame_map(format, data, out))
}

#[unsafe(no_mangle)]
pub extern "C" fn slt_dpdch_frame_read(format: usize, frame: &[u8], data: &mut [u8]) -> u64
    ensures { DpdchFrameRead format frame.now «data».old result «data».new }
{
    done(dpdch::frame_read(format, frame, data))
}
