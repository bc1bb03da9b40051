// A compressed frame of the downlink DPCH, with a gap of missing slots: its rule, promises and theorems, and the checks of row, gap and lengths:
// docs/RULES.md, 'Compressed frames'; TS 25.211, 5.3.2.
#![tactic(auto)]

ghost use Rattle.std.specs.Prelude.{◌≡◌};
ghost use Rattle.run.specs.Answers.{verdict_of};
ghost use Rattle.dpch.specs.Compressed.{format_in};
ghost use Rattle.compressed.specs.Rule.{is_missing, transmitted, turn_of, gap_stands};
ghost use Rattle.compressed.specs.Outcome.{gap_head, map_head, read_head};

use dpch::Format;
use run::{Reason, Refusal, lengths_are, require};

// How many of a frame's slots are transmitted.
pub fn transmitted(missing: usize) -> usize
    ensures { result ≡ transmitted missing }
{
    15usize.saturating_sub(missing)
}

// Whether slot k is missing. Nothing is added: the numbers may be huge.
#[tactic(auto, unfolding(crate::specs::Rule::is_missing))]
pub fn is_missing(first: usize, missing: usize, k: usize) -> bool
    ensures { result ≡ is_missing first missing k }
{
    first <= k && k - first < missing
}

// Which of the transmitted slots slot k is.
#[tactic(auto, unfolding(crate::specs::Rule::turn_of))]
pub fn turn_of(first: usize, missing: usize, k: usize) -> usize
    ensures { result ≡ turn_of first missing k }
{
    if k < first {
        k
    } else {
        k.saturating_sub(missing)
    }
}

// Whether the gap leaves as many slots as the row permits, and ends by slot 14.
#[tactic(auto, unfolding(crate::specs::Rule::gap_stands))]
fn gap_stands(f: Format, first: usize, missing: usize) -> bool
    ensures { result ≡ gap_stands f first missing }
{
    let sent = transmitted(missing);
    f.fewest <= sent && sent <= f.most && first.saturating_add(missing) <= 15
}

// The checks with which both calls begin: the row, the gap, then the lengths of the call's runs. What is refused is told at once: past the row the compiler knows that it is of kind A
// or B.
pub fn check_gap_head(
    f: Format,
    first: usize,
    missing: usize,
    right: &[bool],
) -> Result<(), Refusal>
    ensures { verdict_of result ≡ gap_head f first missing right.now }
{
    require(f.kind != 0, Reason::Format, 0)?;
    require(gap_stands(f, first, missing), Reason::Gap, 0)?;
    lengths_are(right)
}

// The checks of row, gap and lengths before a frame is mapped.
pub fn check_map_head(
    format: usize,
    kind: usize,
    first: usize,
    missing: usize,
    data_length: usize,
    tfci_length: usize,
    out_length: usize,
    commands_length: usize,
) -> Result<(), Refusal>
    ensures { verdict_of result ≡ map_head (format_in kind format) first missing data_length tfci_length out_length commands_length }
{
    let s = slot::row_sizes(kind, format);
    let n = transmitted(missing);
    check_gap_head(
        dpch_rows::format_in(kind, format),
        first,
        missing,
        &[
            data_length == n * s.data,
            tfci_length == n * s.tfci,
            out_length == 15 * s.slot,
            commands_length == n,
        ],
    )
}

// .. before one is read.
pub fn check_read_head(
    format: usize,
    kind: usize,
    first: usize,
    missing: usize,
    frame_length: usize,
    data_length: usize,
    tfci_length: usize,
    commands_length: usize,
) -> Result<(), Refusal>
    ensures { verdict_of result ≡ read_head (format_in kind format) first missing frame_length data_length tfci_length commands_length }
{
    let s = slot::row_sizes(kind, format);
    let n = transmitted(missing);
    check_gap_head(
        dpch_rows::format_in(kind, format),
        first,
        missing,
        &[
            frame_length == 15 * s.slot,
            data_length == n * s.data,
            tfci_length == n * s.tfci,
            commands_length == n,
        ],
    )
}
