// HS-PDSCH: each call is that of the crate `slt_hspdsch`, with the same promise.

ghost use Rattle.slt_hspdsch.specs.Outcome.{HspdschMap, HspdschRead};

#[unsafe(no_mangle)]
pub extern "C" fn slt_hspdsch_map(
    format: usize,
    data: &[u8],
    antenna1: &mut [u8],
    antenna2: &mut [u8],
) -> u64
    ensures { HspdschMap format «data».now antenna1.old antenna2.old result antenna1.new antenna2.new }
{
    slt_hspdsch::slt_hspdsch_map(format, data, antenna1, antenna2)
}

#[unsafe(no_mangle)]
pub extern "C" fn slt_hspdsch_read(
    format: usize,
    antenna1: &[u8],
    antenna2: &[u8],
    data: &mut [u8],
) -> u64
    ensures { HspdschRead format antenna1.now antenna2.now «data».old result «data».new }
{
    slt_hspdsch::slt_hspdsch_read(format, antenna1, antenna2, data)
}
