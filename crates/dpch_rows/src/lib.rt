// The downlink DPCH in compressed frames: the rows of formats A and B, made of the normal ones, and the pilot bits with each pair twice (the table, the rules and the
// theorems are those of the crate `dpch`): docs/RULES.md, 'Compressed frames'; TS 25.211, 5.3.2, tables 11 and 12.
#![tactic(auto)]

ghost use Rattle.std.specs.Prelude.{◌≡◌, cond, eqb};
ghost use Rattle.dpch.specs.Formats.{kind_a};
ghost use Rattle.dpch.specs.Pilots.{pilot_row};
ghost use Rattle.dpch.specs.Compressed.{format_in, pairs_twice};
ghost use Rattle.dpch.specs.Exact.{as_a, as_b};
ghost use Rattle.dpch_rows.specs.Ready.{Beside};

use dpch::{Format, KIND_A, KIND_B, NORMAL, format_of};

// A number that the table lacks in every kind: its row is all zeros.
const NONE: usize = 17;

// The table has no 1A and no 16B.
fn is_lacking(kind: usize, n: usize) -> bool
    ensures { result ≡ cond (eqb kind kind_a) (eqb n 1) (eqb n 16) }
{
    if kind == KIND_A { n == 1 } else { n == 16 }
}

// The row of kind A or B beside a normal one: A has its fields once, B twice. In both the TFCI is doubled, and in A Data2 gives up as many digits. It is one row of
// products, with no choice in it, so that the caller's loops need not make it again for each slot.
fn row_beside(kind: usize, f: Format) -> Format
    requires { Beside kind f }
    ensures { result ≡ cond (eqb kind kind_a) (as_a f) (as_b f) }
{
    Format {
        data1: kind * f.data1,
        data2: kind * f.data2 - (2 - kind) * f.tfci,
        tpc: kind * f.tpc,
        tfci: 2 * f.tfci,
        pilot: kind * f.pilot,
        slot: kind * f.slot,
        kind,
        fewest: 8,
        most: 14,
    }
}

// The row of a kind and a number, a row of zeros where there is none.
pub fn format_in(kind: usize, n: usize) -> Format
    ensures { result ≡ format_in kind n }
{
    let f = format_of(n);
    if kind == NORMAL {
        return f;
    }
    if KIND_B < kind || 16 < n || is_lacking(kind, n) {
        return format_of(NONE);
    }
    row_beside(kind, f)
}

// The pilot bits of a slot, each pair twice.
pub fn doubled_row(slot: usize) -> [u8; 32]
    ensures { result ≡ pairs_twice (pilot_row slot) }
{
    let row = dpch_pilot::pilot_row(0, slot);
    let mut doubled = [0; 32];
    for k in 0..32 {
        doubled[k] = row[k / 4 * 2 + k % 2];
    }
    doubled
}
