// Compressed DPCH frames for a C host: each call is that of the crates `compressed_map` and `compressed_read`, with the answer packed in one number (docs/INTERFACE.md).
#![tactic(auto)]

ghost use Rattle.slt_compressed.specs.Outcome.{CompressedMap, CompressedRead};

use packed::done;

#[unsafe(no_mangle)]
pub extern "C" fn slt_compressed_map(
    format: usize,
    kind: usize,
    first: usize,
    missing: usize,
    data: &[u8],
    tfci: &[u8],
    out: &mut [u8],
    commands: &[u8],
) -> u64
    ensures { CompressedMap format kind first missing «data».now tfci.now out.old commands.now result out.new }
{
    done(compressed_map::map(format, kind, first, missing, data, tfci, out, commands))
}

#[unsafe(no_mangle)]
pub extern "C" fn slt_compressed_read(
    format: usize,
    kind: usize,
    first: usize,
    missing: usize,
    frame: &[u8],
    data: &mut [u8],
    tfci: &mut [u8],
    commands: &mut [u8],
) -> u64
    ensures { CompressedRead format kind first missing frame.now «data».old tfci.old commands.old result «data».new tfci.new commands.new }
{
    done(compressed_read::read(format, kind, first, missing, frame, data, tfci, commands))
}
