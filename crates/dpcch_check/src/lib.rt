// The digits of one slot of the uplink DPCCH, checked (rule, promises and theorems are those of the crate `dpcch`): docs/RULES.md, 'Uplink DPCCH'; TS 25.211, 5.2.1.1.
#![tactic(auto)]

ghost use Rattle.std.specs.Prelude.{◌≡◌};
ghost use Rattle.run.specs.Answers.{verdict_of};
ghost use Rattle.dpcch.specs.Outcome.{part_verdict};

use run::{Reason, Refusal, require};

mod fields;

// The checks of a slot's digits, which count their places from `base`.
pub fn check(format: usize, slot: usize, xs: &[u8], base: u16) -> Result<(), Refusal>
    ensures { verdict_of result ≡ part_verdict format slot xs.now base }
{
    let f = dpcch::format_of(format);
    require(xs.len() == f.slot, Reason::Length, 0)?;
    fields::check(f, slot, xs, base)
}
