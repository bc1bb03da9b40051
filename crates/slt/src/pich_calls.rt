// PICH: each call is that of the crate `slt_pich`, with the same promise.

ghost use Rattle.slt_pich.specs.Outcome.{PichQ, PichMap, PichRead};

#[unsafe(no_mangle)]
pub extern "C" fn slt_pich_q(np: usize, pi: usize, sfn: usize) -> u64
    ensures { PichQ np pi sfn result }
{
    slt_pich::slt_pich_q(np, pi, sfn)
}

#[unsafe(no_mangle)]
pub extern "C" fn slt_pich_map(np: usize, indicators: &[u8], frame: &mut [u8]) -> u64
    ensures { PichMap np indicators.now frame.old result frame.new }
{
    slt_pich::slt_pich_map(np, indicators, frame)
}

#[unsafe(no_mangle)]
pub extern "C" fn slt_pich_read(np: usize, frame: &[u8], indicators: &mut [u8]) -> u64
    ensures { PichRead np frame.now indicators.old result indicators.new }
{
    slt_pich::slt_pich_read(np, frame, indicators)
}
