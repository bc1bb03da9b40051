// The fields of a slot: each is checked in its own stretch of the slot.
ghost use Rattle.std.specs.List.{position, zip};
ghost use Rattle.std.specs.Prelude.{◌≡◌, ◌==◌, not, length};
ghost use Rattle.run.specs.Answers.{verdict_of};
ghost use Rattle.dpcch.specs.Outcome.{digits_verdict};
ghost use Rattle.dpcch.specs.Ready.{pilot_source, Whole};

use dpch::Dpcch;
use run::{Reason, Refusal, refused_at};

// The first place at which a pilot field differs from the slot's pilot.
fn pilot_differs(s: &[u8], slot: usize) -> Option<usize>
    ensures { result ≡ position (λ pair. not (pair.0 == pair.1)) (zip s.now (pilot_source (length s.now) slot)) }
{
    let row = dpcch_pilot::pilot_row(slot);
    let a = dpcch_pilot::pilot_start(s.len());
    scan_diff::difference(s, &row[a..15])
}

// The checks of a slot's digits, field by field.
pub(crate) fn check(f: Dpcch, slot: usize, xs: &[u8], base: u16) -> Result<(), Refusal>
    requires { Whole f (length xs.now) }
    ensures { verdict_of result ≡ digits_verdict f slot xs.now base }
{
    let first = base as u32;
    refused_at(xs, scan::above(xs, 1), Reason::Digit, first)?;
    let a = f.pilot;
    let b = a + f.tfci + f.fbi;
    let c = b + f.tpc;
    let tpc = &xs[b..c];
    refused_at(tpc, scan_equal::unlike(tpc), Reason::Tpc, first + b as u32)?;
    let pilot = &xs[0..a];
    refused_at(pilot, pilot_differs(pilot, slot), Reason::Pilot, first)
}
