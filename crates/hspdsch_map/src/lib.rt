// The high-speed data channel on two antennas, mapped (rule, promises and theorems are those of the crate `hspdsch`): docs/RULES.md, 'HS-PDSCH'; TS 25.211, 5.3.3.13 and 5.3.1.1.1.
#![tactic(auto)]

ghost use Rattle.std.specs.Prelude.{◌≡◌};
ghost use Rattle.run.specs.Answers.{verdict_of};
ghost use Rattle.hspdsch.specs.Outcome.{map_verdict, Map};

use dpch::check_frame_head;
use run::{Reason, Refusal, refused_at};

// The checks in their order.
fn check(format: usize, data: &[u8], length1: usize, length2: usize) -> Result<(), Refusal>
    ensures { verdict_of result ≡ map_verdict format «data».now length1 length2 }
{
    let n = hspdsch::size_of(format);
    check_frame_head(1, format, &[data.len() == n, length1 == n, length2 == n])?;
    refused_at(data, scan::above(data, 1), Reason::Digit, 0)
}

// The subframes of both antennas, or the refusal and the subframes as they were.
pub fn map(
    format: usize,
    data: &[u8],
    antenna1: &mut [u8],
    antenna2: &mut [u8],
) -> Result<(), Refusal>
    ensures { Map format «data».now antenna1.old antenna2.old (verdict_of result) antenna1.new antenna2.new }
{
    check(format, data, antenna1.len(), antenna2.len())?;
    hspdsch_encode::encode(format, data, antenna2);
    write::copy(antenna1, data);
    Ok(())
}
