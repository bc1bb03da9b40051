// P-CCPCH: each call is that of the crate `slt_pccpch`, with the same promise.

ghost use Rattle.slt_pccpch.specs.Outcome.{PccpchMap, PccpchRead};

#[unsafe(no_mangle)]
pub extern "C" fn slt_pccpch_map(data: &[u8], antenna1: &mut [u8], antenna2: &mut [u8]) -> u64
    ensures { PccpchMap «data».now antenna1.old antenna2.old result antenna1.new antenna2.new }
{
    slt_pccpch::slt_pccpch_map(data, antenna1, antenna2)
}

#[unsafe(no_mangle)]
pub extern "C" fn slt_pccpch_read(antenna1: &[u8], antenna2: &[u8], data: &mut [u8]) -> u64
    ensures { PccpchRead antenna1.now antenna2.now «data».old result «data».new }
{
    slt_pccpch::slt_pccpch_read(antenna1, antenna2, data)
}
