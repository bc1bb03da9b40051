// Compressed DPCH frames: each call is that of the crate `slt_compressed`, with the same promise.

ghost use Rattle.slt_compressed.specs.Outcome.{CompressedMap, CompressedRead};

#[unsafe(no_mangle)]
pub extern "C" fn slt_compressed_map(
    format: usize,
    kind: usize,
    first: usize,
    missing: usize,
    data: &[u8],
    tfci: &[u8],
    out: &mut [u8],
    commands: &[u8],
) -> u64
    ensures { CompressedMap format kind first missing «data».now tfci.now out.old commands.now result out.new }
{
    slt_compressed::slt_compressed_map(format, kind, first, missing, data, tfci, out, commands)
}

#[unsafe(no_mangle)]
pub extern "C" fn slt_compressed_read(
    format: usize,
    kind: usize,
    first: usize,
    missing: usize,
    frame: &[u8],
    data: &mut [u8],
    tfci: &mut [u8],
    commands: &mut [u8],
) -> u64
    ensures { CompressedRead format kind first missing frame.now «data».old tfci.old commands.old result «data».new tfci.new commands.new }
{
    slt_compressed::slt_compressed_read(format, kind, first, missing, frame, data, tfci, commands)
}
