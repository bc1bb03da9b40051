// The digits of one slot of the downlink DPCH, checked (rule, promises and theorems are those of the crate `slot`): docs/RULES.md, 'DPCH slot'; TS 25.211, 5.3.2.
#![tactic(auto)]

ghost use Rattle.std.specs.Prelude.{◌≡◌};
ghost use Rattle.run.specs.Answers.{verdict_of};
ghost use Rattle.dpch.specs.Formats.{format_of};
ghost use Rattle.dpch.specs.Compressed.{format_in};
ghost use Rattle.slot.specs.Outcome.{part_verdict};

use run::Refusal;

mod fields;

// The checks of a slot's digits, which count their places from `base`. Where all is well there is no place to look for.
pub fn check_part(format: usize, slot: usize, xs: &[u8], base: u32) -> Result<(), Refusal>
    ensures { verdict_of result ≡ part_verdict (format_of format) slot xs.now base }
{
    if slot_fits::fits(format, slot, xs) {
        return Ok(());
    }
    fields::check(dpch::format_of(format), slot, xs, base)
}

// .. of a row of any kind.
pub fn check_row(
    kind: usize,
    format: usize,
    slot: usize,
    xs: &[u8],
    base: u32,
) -> Result<(), Refusal>
    ensures { verdict_of result ≡ part_verdict (format_in kind format) slot xs.now base }
{
    if slot_fits::row_fits(kind, format, slot, xs) {
        return Ok(());
    }
    fields::check(dpch_rows::format_in(kind, format), slot, xs, base)
}
