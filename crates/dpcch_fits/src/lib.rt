// Whether a slot of the uplink DPCCH is one that some fields give (rule, promises and theorems are those of the crate `dpcch`): docs/RULES.md, 'Uplink DPCCH'; TS 25.211, 5.2.1.1.
// Nearly every slot is, so this is asked first; which digit is refused, and where, the crate `dpcch_check` finds.
#![tactic(auto)]

ghost use Rattle.std.specs.Prelude.{◌≡◌, ◌&&◌, ◌≤◌, eqb, leb, length};
ghost use Rattle.run.specs.First.{all, agree};
ghost use Rattle.dpcch.specs.Outcome.{digits_verdict, part_verdict};
ghost use Rattle.dpcch.specs.Ready.{pilot_source, Whole};

use dpch::Dpcch;

// Whether the digits of a pilot field are the slot's pilot.
fn is_pilot(s: &[u8], slot: usize) -> bool
    ensures { result ≡ (leb (length s.now) (length (pilot_source (length s.now) slot)) && all (length s.now) (agree s.now (pilot_source (length s.now) slot))) }
{
    let row = dpcch_pilot::pilot_row(slot);
    let a = dpcch_pilot::pilot_start(s.len());
    scan_diff::same_front(s, &row[a..15], s.len())
}

// Each field in its own stretch, and all digits together. Of bits, TPC digits are a command where they are the same. None is left out where another fails: a jump costs more
// than a field.
fn digits_fit(f: Dpcch, slot: usize, xs: &[u8]) -> bool
    requires { Whole f (length xs.now) × (f.tpc ≡ 2) }
    ensures { result ≡ eqb (digits_verdict f slot xs.now 0).number 0 }
{
    let a = f.pilot;
    let b = a + f.tfci + f.fbi;
    let c = b + 1;
    scan::all_at_most(xs, 1, f.slot) & (xs[c] == xs[b]) & is_pilot(&xs[0..a], slot)
}

// Whether the run is a slot of the format and no check of its digits refuses it.
fn fits_as(format: usize, slot: usize, xs: &[u8]) -> bool
    requires { format ≤ 3 }
    ensures { result ≡ eqb (part_verdict format slot xs.now 0).number 0 }
{
    let f = dpcch::format_of(format);
    xs.len() == f.slot && digits_fit(f, slot, xs)
}

// The same, of the table's formats; of any other it is not. Where the format is a number, so is the width of each field, and a field is one comparison. Inlined: a frame then asks for its
// format once, and not at each of its slots.
#[inline(always)]
pub fn fits(format: usize, slot: usize, xs: &[u8]) -> bool
    ensures { result ≡ (leb format 3 && eqb (part_verdict format slot xs.now 0).number 0) }
{
    match format {
        0 => fits_as(0, slot, xs),
        1 => fits_as(1, slot, xs),
        2 => fits_as(2, slot, xs),
        3 => fits_as(3, slot, xs),
        _ => false,
    }
}
