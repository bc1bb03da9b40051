// Whether a slot of the downlink DPCH is one that some fields give (rule, promises and theorems are those of the crate `slot`): docs/RULES.md, 'DPCH slot'; TS 25.211, 5.3.2.
// Nearly every slot is, so this is asked first; which digit is refused, and where, the crate `slot_check` finds.
#![tactic(auto)]

ghost use Rattle.std.specs.Prelude.{◌≡◌, ◌≤◌, eqb, length};
ghost use Rattle.run.specs.First.{all, at_most, is_at, like_first, agree};
ghost use Rattle.dpch.specs.Formats.{normal, kind_b, format_of};
ghost use Rattle.dpch.specs.Pilots.{pilot_of};
ghost use Rattle.dpch.specs.Compressed.{format_in, pilot_for};
ghost use Rattle.slot.specs.Outcome.{digits_verdict, part_verdict};
ghost use Rattle.slot.specs.Ready.{Sound, Whole};
ghost use Rattle.slot_fits.specs.Method.{PilotWidth};

use dpch::{Format, KIND_B};
use run::DTX;

// Whether the first n digits are all `v`. Here and below n is a number where the function is called, so that a field is one comparison; a loop with an early way out (`all`) would not be.
fn all_are(s: &[u8], v: u8, n: usize) -> bool
    requires { n ≤ length s.now }
    ensures { result ≡ all n (is_at v s.now) }
{
    let mut good = true;
    for k in 0..n {
        if s[k] != v {
            good = false;
        }
    }
    good
}

// Whether the first n digits of two runs are the same.
fn all_agree(s: &[u8], t: &[u8], n: usize) -> bool
    requires { (n ≤ length s.now) × (n ≤ length t.now) }
    ensures { result ≡ all n (agree s.now t.now) }
{
    let mut good = true;
    for k in 0..n {
        if s[k] != t[k] {
            good = false;
        }
    }
    good
}

// Whether the digits of a TPC field are one bit.
fn is_command(s: &[u8]) -> bool
    ensures { result ≡ all (length s.now) (like_first s.now) }
{
    let n = s.len();
    if n == 0 {
        return true;
    }
    let v = s[0];
    if v == DTX {
        return false;
    }
    match n {
        2 => all_are(s, v, 2),
        4 => all_are(s, v, 4),
        8 => all_are(s, v, 8),
        16 => all_are(s, v, 16),
        _ => all_are(s, v, n),
    }
}

// Whether the digits of a pilot field are the slot's pilot.
fn is_plain(s: &[u8], slot: usize) -> bool
    requires { PilotWidth normal (length s.now) }
    ensures { result ≡ all (length s.now) (agree s.now (pilot_of (length s.now) slot)) }
{
    let row = dpch_pilot::pilot_row(0, slot);
    match s.len() {
        2 => all_agree(s, &row[2..4], 2),
        4 => all_agree(s, &row, 4),
        8 => all_agree(s, &row, 8),
        16 => all_agree(s, &row, 16),
        _ => true,
    }
}

// .. of a format B, in which each pair of bits stands twice. It names its own widths: one function for both would be handed them, and they would be numbers no more.
fn is_doubled(s: &[u8], slot: usize) -> bool
    requires { PilotWidth kind_b (length s.now) }
    ensures { result ≡ all (length s.now) (agree s.now (pilot_for kind_b (length s.now) slot)) }
{
    let row = dpch_rows::doubled_row(slot);
    match s.len() {
        4 => all_agree(s, &row[4..8], 4),
        8 => all_agree(s, &row, 8),
        16 => all_agree(s, &row, 16),
        32 => all_agree(s, &row, 32),
        _ => true,
    }
}

// .. of a format's kind.
fn is_pilot(s: &[u8], kind: usize, slot: usize) -> bool
    requires { PilotWidth kind (length s.now) }
    ensures { result ≡ all (length s.now) (agree s.now (pilot_for kind (length s.now) slot)) }
{
    if kind == KIND_B {
        is_doubled(s, slot)
    } else {
        is_plain(s, slot)
    }
}

// Whether no digit is above DTX. A loop of any length goes 32 digits at a time and then four: slots that leave some over are worth a look whose length is a number.
fn are_digits(s: &[u8]) -> bool
    ensures { result ≡ all (length s.now) (at_most 2 s.now) }
{
    match s.len() {
        40 => scan::all_at_most(s, 2, 40),
        80 => scan::all_at_most(s, 2, 80),
        _ => scan::above(s, 2).is_none(),
    }
}

// Each field in its own stretch, and all digits together. None is left out where another fails: a jump costs more than a field.
fn fields_fit(f: Format, slot: usize, xs: &[u8]) -> bool
    requires { Whole f (length xs.now) × PilotWidth f.kind f.pilot }
    ensures { result ≡ eqb (digits_verdict f slot xs.now 0).number 0 }
{
    let a = f.data1;
    let b = a + f.tpc;
    let c = b + f.tfci;
    let d = c + f.data2;
    let e = d + f.pilot;
    let last = slot_tfci::is_tfci(&xs[b..c]) & is_pilot(&xs[d..e], f.kind, slot);
    are_digits(xs) & (is_command(&xs[a..b]) & last)
}

// Whether the run has the row's length, and no check of its digits refuses it.
fn is_slot(f: Format, slot: usize, xs: &[u8]) -> bool
    requires { Sound f × PilotWidth f.kind f.pilot }
    ensures { result ≡ eqb (part_verdict f slot xs.now 0).number 0 }
{
    if xs.len() != f.slot {
        return false;
    }
    fields_fit(f, slot, xs)
}

// Whether the run is a slot of the format and no check of its digits refuses it.
pub fn fits(format: usize, slot: usize, xs: &[u8]) -> bool
    ensures { result ≡ eqb (part_verdict (format_of format) slot xs.now 0).number 0 }
{
    is_slot(dpch::format_of(format), slot, xs)
}

// .. of a row of any kind.
pub fn row_fits(kind: usize, format: usize, slot: usize, xs: &[u8]) -> bool
    ensures { result ≡ eqb (part_verdict (format_in kind format) slot xs.now 0).number 0 }
{
    is_slot(dpch_rows::format_in(kind, format), slot, xs)
}
