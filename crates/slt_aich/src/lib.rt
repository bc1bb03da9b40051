// AICH for a C host: each call is that of the crate `aich`, with the answer packed in one number (docs/INTERFACE.md).
#![tactic(auto)]

ghost use Rattle.slt_aich.specs.Outcome.{AichMap, AichRead, AichMapAvailable, AichReadAvailable};

use packed::done;

#[unsafe(no_mangle)]
pub extern "C" fn slt_aich_map(indicators: &[i32], values: &mut [i32]) -> u64
    ensures { AichMap indicators.now values.old result values.new }
{
    done(aich::map(indicators, values))
}

#[unsafe(no_mangle)]
pub extern "C" fn slt_aich_read(values: &[i32], indicators: &mut [i32]) -> u64
    ensures { AichRead values.now indicators.old result indicators.new }
{
    done(aich::read(values, indicators))
}

#[unsafe(no_mangle)]
pub extern "C" fn slt_aich_map_available(
    available: u16,
    indicators: &[i32],
    values: &mut [i32],
) -> u64
    ensures { AichMapAvailable available indicators.now values.old result values.new }
{
    done(aich::map_available(available, indicators, values))
}

#[unsafe(no_mangle)]
pub extern "C" fn slt_aich_read_available(
    available: u16,
    values: &[i32],
    indicators: &mut [i32],
) -> u64
    ensures { AichReadAvailable available values.now indicators.old result indicators.new }
{
    done(aich::read_available(available, values, indicators))
}
