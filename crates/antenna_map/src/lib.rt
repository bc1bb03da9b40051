// One slot of the downlink DPCH for one of two antennas, mapped (rule, promises and theorems are those of the crate `antenna`): docs/RULES.md, 'DPCH on the second antenna'; TS 25.211, 5.3.2.1.
#![tactic(auto)]

ghost use Rattle.std.specs.Prelude.{◌≡◌, length};
ghost use Rattle.run.specs.Answers.{verdict_of};
ghost use Rattle.antenna.specs.Outcome.{Map};
ghost use Rattle.antenna_map.specs.Method.{no_antenna};

use run::{Reason, Refusal, require};

// The checks for an antenna that there is not: no length is asked.
fn no_antenna(format: usize, slot: usize) -> Result<(), Refusal>
    ensures { verdict_of result ≡ no_antenna format slot }
{
    require(format <= 16, Reason::Format, 0)?;
    require(slot <= 14, Reason::Slot, 0)?;
    Err(Refusal {
        reason: Reason::Range,
        place: 0,
    })
}

// Antenna 1's slot goes into `first`, a run as long as the output, and antenna 2's digits are made of it.
fn through(
    format: usize,
    slot: usize,
    tpc: usize,
    data: &[u8],
    tfci: &[u8],
    first: &mut [u8],
    out: &mut [u8],
) -> Result<(), Refusal>
    requires { length first.old ≡ length out.old }
    ensures { Map format slot 1 tpc «data».now tfci.now out.old (verdict_of result) out.new }
{
    slot_map::map(format, slot, tpc, data, tfci, first)?;
    antenna::second_of(format, slot, first, out);
    Ok(())
}

// Antenna 2. A short slot needs but a short run beside it; an output longer than any slot is refused by the checks of antenna 1.
fn map_second(
    format: usize,
    slot: usize,
    tpc: usize,
    data: &[u8],
    tfci: &[u8],
    out: &mut [u8],
) -> Result<(), Refusal>
    ensures { Map format slot 1 tpc «data».now tfci.now out.old (verdict_of result) out.new }
{
    let n = out.len();
    if n <= 160 {
        let mut short = [0u8; 160];
        return through(format, slot, tpc, data, tfci, &mut short[0..n], out);
    }
    if n <= 1280 {
        let mut long = [0u8; 1280];
        return through(format, slot, tpc, data, tfci, &mut long[0..n], out);
    }
    slot_map::map(format, slot, tpc, data, tfci, out)
}

// The slot of the fields on an antenna, number 0 for antenna 1, or the refusal and `out` as it was.
pub fn map(
    format: usize,
    slot: usize,
    antenna: usize,
    tpc: usize,
    data: &[u8],
    tfci: &[u8],
    out: &mut [u8],
) -> Result<(), Refusal>
    ensures { Map format slot antenna tpc «data».now tfci.now out.old (verdict_of result) out.new }
{
    match antenna {
        0 => slot_map::map(format, slot, tpc, data, tfci, out),
        1 => map_second(format, slot, tpc, data, tfci, out),
        _ => no_antenna(format, slot),
    }
}
