// A frame of the downlink DPCH, fifteen slots of one format: its rule, promises and theorems, and the checks of format and lengths: docs/RULES.md, 'DPCH slot'; TS 25.211, 5.3.2.
#![tactic(auto)]

ghost use Rattle.std.specs.Prelude.{◌≡◌};
ghost use Rattle.run.specs.Answers.{verdict_of};
ghost use Rattle.frame.specs.Outcome.{map_head, read_head};

use dpch::check_frame_head;
use run::Refusal;
use slot::sizes_of;

// The checks of format and lengths before a frame is mapped.
pub fn check_map_head(
    format: usize,
    data_length: usize,
    tfci_length: usize,
    out_length: usize,
    commands_length: usize,
) -> Result<(), Refusal>
    ensures { verdict_of result ≡ map_head format data_length tfci_length out_length commands_length }
{
    let s = sizes_of(format);
    check_frame_head(
        16,
        format,
        &[
            data_length == 15 * s.data,
            tfci_length == 15 * s.tfci,
            out_length == 15 * s.slot,
            commands_length == 15,
        ],
    )
}

// The checks of format and lengths before a frame is read.
pub fn check_read_head(
    format: usize,
    frame_length: usize,
    data_length: usize,
    tfci_length: usize,
    commands_length: usize,
) -> Result<(), Refusal>
    ensures { verdict_of result ≡ read_head format frame_length data_length tfci_length commands_length }
{
    let s = sizes_of(format);
    check_frame_head(
        16,
        format,
        &[
            frame_length == 15 * s.slot,
            data_length == 15 * s.data,
            tfci_length == 15 * s.tfci,
            commands_length == 15,
        ],
    )
}
