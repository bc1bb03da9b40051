// P-CCPCH for a C host: each call is that of the crates `pccpch` and `pccpch_read`, with the answer packed in one number (docs/INTERFACE.md).
#![tactic(auto)]

ghost use Rattle.slt_pccpch.specs.Outcome.{PccpchMap, PccpchRead};

use packed::done;

#[unsafe(no_mangle)]
pub extern "C" fn slt_pccpch_map(data: &[u8], antenna1: &mut [u8], antenna2: &mut [u8]) -> u64
    ensures { PccpchMap «data».now antenna1.old antenna2.old result antenna1.new antenna2.new }
{
    done(pccpch::map(data, antenna1, antenna2))
}

#[unsafe(no_mangle)]
pub extern "C" fn slt_pccpch_read(antenna1: &[u8], antenna2: &[u8], data: &mut [u8]) -> u64
    ensures { PccpchRead antenna1.now antenna2.now «data».old result «data».new }
{
    done(pccpch_read::read(antenna1, antenna2, data))
}
