// One slot of the downlink DPCH: its rule, promises and theorems, and the lengths of its runs: docs/RULES.md, 'DPCH slot'; TS 25.211, 5.3.2.
#![tactic(auto)]

ghost use Rattle.std.specs.Prelude.{◌≡◌};
ghost use Rattle.dpch.specs.Formats.{format_of};
ghost use Rattle.dpch.specs.Compressed.{format_in};
ghost use Rattle.slot.specs.Outcome.{sizes_are};
ghost use Rattle.slot.specs.Ready.{Sound, SizesOf};

use dpch::Format;

// The lengths of one slot's runs.
#[derive(Clone, Copy)]
pub struct Sizes {
    pub data: usize,
    pub tfci: usize,
    pub slot: usize,
}

fn sizes_in(f: Format) -> Sizes
    requires { Sound f }
    ensures { SizesOf f result }
{
    Sizes {
        data: f.data1 + f.data2,
        tfci: f.tfci,
        slot: f.slot,
    }
}

// .. in a normal format.
pub fn sizes_of(format: usize) -> Sizes
    ensures { SizesOf (format_of format) result }
{
    sizes_in(dpch::format_of(format))
}

// .. in a row of any kind.
pub fn row_sizes(kind: usize, format: usize) -> Sizes
    ensures { SizesOf (format_in kind format) result }
{
    sizes_in(dpch_rows::format_in(kind, format))
}

// Whether a row is one of a compressed format, and data, TFCI and slot have its lengths: all that writing a slot of it or taking its fields stands on. Nothing is added:
// the row may be any.
pub fn sizes_are(f: Format, data_length: usize, tfci_length: usize, slot_length: usize) -> bool
    ensures { result ≡ sizes_are f data_length tfci_length slot_length }
{
    if f.kind == 0 {
        return false;
    }
    if data_length < f.data1 {
        return false;
    }
    if data_length - f.data1 != f.data2 {
        return false;
    }
    if tfci_length != f.tfci {
        return false;
    }
    slot_length == f.slot
}
