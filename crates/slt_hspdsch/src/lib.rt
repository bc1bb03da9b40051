// HS-PDSCH for a C host: each call is that of the crates `hspdsch_map` and `hspdsch_read`, with the answer packed in one number (docs/INTERFACE.md).
#![tactic(auto)]

ghost use Rattle.slt_hspdsch.specs.Outcome.{HspdschMap, HspdschRead};

use packed::done;

#[unsafe(no_mangle)]
pub extern "C" fn slt_hspdsch_map(
    format: usize,
    data: &[u8],
    antenna1: &mut [u8],
    antenna2: &mut [u8],
) -> u64
    ensures { HspdschMap format «data».now antenna1.old antenna2.old result antenna1.new antenna2.new }
{
    done(hspdsch_map::map(format, data, antenna1, antenna2))
}

#[unsafe(no_mangle)]
pub extern "C" fn slt_hspdsch_read(
    format: usize,
    antenna1: &[u8],
    antenna2: &[u8],
    data: &mut [u8],
) -> u64
    ensures { HspdschRead format antenna1.now antenna2.now «data».old result «data».new }
{
    done(hspdsch_read::read(format, antenna1, antenna2, data))
}
