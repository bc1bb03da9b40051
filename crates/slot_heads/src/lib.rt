// The checks of numbers and lengths with which a call on one slot of the downlink DPCH begins (rule, promises and theorems are those of the crate `slot`): docs/RULES.md, 'DPCH slot'.
#![tactic(auto)]

ghost use Rattle.std.specs.Prelude.{◌≡◌};
ghost use Rattle.run.specs.Answers.{verdict_of};
ghost use Rattle.slot.specs.Outcome.{map_head, read_head};

use dpch::check_slot_head;
use run::Refusal;
use slot::sizes_of;

// The checks of numbers and lengths before a slot is mapped.
pub fn map_head(
    format: usize,
    slot: usize,
    data_length: usize,
    tfci_length: usize,
    out_length: usize,
) -> Result<(), Refusal>
    ensures { verdict_of result ≡ map_head format slot data_length tfci_length out_length }
{
    let s = sizes_of(format);
    check_slot_head(
        16,
        format,
        slot,
        &[
            data_length == s.data,
            tfci_length == s.tfci,
            out_length == s.slot,
        ],
    )
}

// The checks of numbers and lengths before a slot is read.
pub fn read_head(
    format: usize,
    slot: usize,
    slot_length: usize,
    data_length: usize,
    tfci_length: usize,
) -> Result<(), Refusal>
    ensures { verdict_of result ≡ read_head format slot slot_length data_length tfci_length }
{
    let s = sizes_of(format);
    check_slot_head(
        16,
        format,
        slot,
        &[
            slot_length == s.slot,
            data_length == s.data,
            tfci_length == s.tfci,
        ],
    )
}
