// The uplink DPCCH: its rule, promises and theorems, its formats, and the checks of numbers and lengths before a slot is mapped. docs/RULES.md, 'Uplink DPCCH';
// TS 25.211, 5.2.1.1, table 2.
#![tactic(auto)]

ghost use Rattle.std.specs.Prelude.{◌≡◌};
ghost use Rattle.run.specs.Answers.{verdict_of};
ghost use Rattle.dpch.specs.Uplink.{dpcch_row, dpcch_format};
ghost use Rattle.dpcch.specs.Outcome.{map_head, sizes_are};

use dpch::Dpcch;
use run::Refusal;

// A row of the table, in its order.
fn row(slot: usize, pilot: usize, tpc: usize, tfci: usize, fbi: usize) -> Dpcch
    ensures { result ≡ dpcch_row slot pilot tpc tfci fbi }
{
    Dpcch {
        pilot,
        tfci,
        fbi,
        tpc,
        slot,
    }
}

// The format of a number, a row of zeros where there is none. A match becomes a table in read-only memory.
pub fn format_of(n: usize) -> Dpcch
    ensures { result ≡ dpcch_format n }
{
    match n {
        0 => row(10, 6, 2, 2, 0),
        1 => row(10, 8, 2, 0, 0),
        2 => row(10, 5, 2, 2, 1),
        3 => row(10, 7, 2, 0, 1),
        _ => row(0, 0, 0, 0, 0),
    }
}

// The checks of numbers and lengths before a slot is mapped.
pub fn check_map_head(
    format: usize,
    slot: usize,
    tfci_length: usize,
    fbi_length: usize,
    out_length: usize,
) -> Result<(), Refusal>
    ensures { verdict_of result ≡ map_head format slot tfci_length fbi_length out_length }
{
    let f = format_of(format);
    let right = [
        tfci_length == f.tfci,
        fbi_length == f.fbi,
        out_length == f.slot,
    ];
    dpch::check_slot_head(3, format, slot, &right)
}

// Whether the table has the format, and TFCI, FBI and slot have its lengths: all that writing a slot or taking its fields stands on.
#[tactic(auto, unfolding(crate::specs::Outcome::sizes_are))]
pub fn sizes_are(format: usize, tfci_length: usize, fbi_length: usize, slot_length: usize) -> bool
    ensures { result ≡ sizes_are format tfci_length fbi_length slot_length }
{
    let f = format_of(format);
    format <= 3 && tfci_length == f.tfci && fbi_length == f.fbi && slot_length == f.slot
}
