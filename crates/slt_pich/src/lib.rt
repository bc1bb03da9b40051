// PICH for a C host: each call is that of the crates `pich`, `pich_map` and `pich_read`, with the answer packed in one number (docs/INTERFACE.md).
#![tactic(auto)]

ghost use Rattle.slt_pich.specs.Outcome.{PichQ, PichMap, PichRead};

use pich::Pi;

#[unsafe(no_mangle)]
pub extern "C" fn slt_pich_q(np: usize, pi: usize, sfn: usize) -> u64
    ensures { PichQ np pi sfn result }
{
    match pich::q(np, Pi(pi), sfn) {
        Ok(q) => packed::answer(Ok(q.0)),
        Err(refusal) => packed::answer(Err(refusal)),
    }
}

#[unsafe(no_mangle)]
pub extern "C" fn slt_pich_map(np: usize, indicators: &[u8], frame: &mut [u8]) -> u64
    ensures { PichMap np indicators.now frame.old result frame.new }
{
    packed::done(pich_map::map(np, indicators, frame))
}

#[unsafe(no_mangle)]
pub extern "C" fn slt_pich_read(np: usize, frame: &[u8], indicators: &mut [u8]) -> u64
    ensures { PichRead np frame.now indicators.old result indicators.new }
{
    packed::done(pich_read::read(np, frame, indicators))
}
