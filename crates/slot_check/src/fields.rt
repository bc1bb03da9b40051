// The fields of a slot: each is checked in its own stretch of the slot.
ghost use Rattle.std.specs.List.{position, zip};
ghost use Rattle.std.specs.Option.{unwrap_or};
ghost use Rattle.std.specs.Prelude.{◌≡◌, ◌==◌, not, cond, ◌+◌, ◌≤◌, eqb, leb, length, take, drop};
ghost use Rattle.run.specs.Answers.{number_of, verdict_of};
ghost use Rattle.run.specs.Verdicts.{unless};
ghost use Rattle.dpch.specs.Compressed.{source_for};
ghost use Rattle.slot.specs.Outcome.{part_verdict};
ghost use Rattle.slot.specs.Ready.{Sound};

use dpch::{Format, KIND_B};
use run::{DTX, Reason, Refusal, refused_at, require};
use slot_map::first_mixed;

// The first place at which a pilot field differs from the row that it begins; one of the shortest is the row's second symbol.
fn differs(s: &[u8], row: &[u8], shortest: usize) -> Option<usize>
    requires { shortest + shortest ≤ length row.now }
    ensures { result ≡ position (λ pair. not (pair.0 == pair.1)) (zip s.now (cond (eqb (length s.now) shortest) (take shortest (drop shortest row.now)) row.now)) }
{
    if s.len() == shortest {
        scan_diff::difference(s, &row[shortest..shortest + shortest])
    } else {
        scan_diff::difference(s, row)
    }
}

// .. from the slot's pilot, of a format's kind: in B each pair of bits stands twice.
fn pilot_differs(s: &[u8], kind: usize, slot: usize) -> Option<usize>
    ensures { result ≡ position (λ pair. not (pair.0 == pair.1)) (zip s.now (source_for kind (length s.now) slot)) }
{
    if kind == KIND_B {
        differs(s, &dpch_rows::doubled_row(slot), 4)
    } else {
        differs(s, &dpch_pilot::pilot_row(0, slot), 2)
    }
}

// Refused at the place that was found of a field that begins at `start` of a slot that begins at `base`.
fn placed(
    s: &[u8],
    found: Option<usize>,
    reason: Reason,
    base: u32,
    start: usize,
) -> Result<(), Refusal>
    requires { start ≤ 1280 }
    ensures { verdict_of result ≡ unless (leb (length s.now) (unwrap_or found (length s.now))) (number_of reason) (base + start + unwrap_or found (length s.now)) }
{
    let i = found.unwrap_or(s.len());
    if s.len() <= i {
        return Ok(());
    }
    Err(Refusal {
        reason,
        place: base as usize + start + i,
    })
}

// The checks of a run that may be a slot: its length, and its digits field by field.
pub(crate) fn check(f: Format, slot: usize, xs: &[u8], base: u32) -> Result<(), Refusal>
    requires { Sound f }
    ensures { verdict_of result ≡ part_verdict f slot xs.now base }
{
    require(xs.len() == f.slot, Reason::Length, 0)?;
    refused_at(xs, scan::above(xs, DTX), Reason::Digit, base)?;
    let a = f.data1;
    let b = a + f.tpc;
    let tpc = &xs[a..b];
    placed(tpc, scan_equal::unlike(tpc), Reason::Tpc, base, a)?;
    let c = b + f.tfci;
    let tfci = &xs[b..c];
    placed(tfci, first_mixed(tfci), Reason::Tfci, base, b)?;
    let d = c + f.data2;
    let pilot = &xs[d..d + f.pilot];
    placed(
        pilot,
        pilot_differs(pilot, f.kind, slot),
        Reason::Pilot,
        base,
        d,
    )
}
