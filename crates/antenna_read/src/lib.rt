// One slot of the downlink DPCH on two antennas, read (rule, promises and theorems are those of the crate `antenna`): docs/RULES.md, 'DPCH on the second antenna'; TS 25.211, 5.3.2.1.
#![tactic(auto)]

ghost use Rattle.std.specs.List.{position, zip};
ghost use Rattle.std.specs.Prelude.{◌≡◌, ◌==◌, not, true, length};
ghost use Rattle.run.specs.Answers.{verdict_of};
ghost use Rattle.run.specs.First.{Every, agree};
ghost use Rattle.run.specs.Verdicts.{done};
ghost use Rattle.dpch.specs.Command.{command_of};
ghost use Rattle.dpch.specs.Formats.{format_of};
ghost use Rattle.antenna.specs.Rule.{second_of};
ghost use Rattle.antenna.specs.Outcome.{read_head, read_body, read_verdict, Read};

use run::{Reason, Refusal, refused_at};

// The checks of numbers and lengths.
fn check_head(
    format: usize,
    slot: usize,
    first_length: usize,
    second_length: usize,
    data_length: usize,
    tfci_length: usize,
) -> Result<(), Refusal>
    ensures { verdict_of result ≡ read_head format slot first_length second_length data_length tfci_length }
{
    let s = slot::sizes_of(format);
    dpch::check_slot_head(
        16,
        format,
        slot,
        &[
            first_length == s.slot,
            second_length == s.slot,
            data_length == s.data,
            tfci_length == s.tfci,
        ],
    )
}

// What the first stream implies goes into `implied`, a run as long as the slot, and is compared.
fn compare(
    format: usize,
    slot: usize,
    first: &[u8],
    second: &[u8],
    implied: &mut [u8],
) -> Option<usize>
    requires { (length first.now ≡ (format_of format).slot) × (length second.now ≡ (format_of format).slot) × (length implied.old ≡ (format_of format).slot) }
    ensures { result ≡ position (λ pair. not (pair.0 == pair.1)) (zip (second_of format slot first.now) second.now) }
{
    antenna::second_of(format, slot, first, implied);
    scan_diff::difference(implied, second)
}

// Where the second stream differs from what the first implies. A short slot needs but a short run.
fn first_difference(format: usize, slot: usize, first: &[u8], second: &[u8]) -> Option<usize>
    requires { (length first.now ≡ (format_of format).slot) × (length second.now ≡ (format_of format).slot) }
    ensures { result ≡ position (λ pair. not (pair.0 == pair.1)) (zip (second_of format slot first.now) second.now) }
{
    let n = first.len();
    if n <= 160 {
        let mut short = [0u8; 160];
        return compare(format, slot, first, second, &mut short[0..n]);
    }
    let mut long = [0u8; 1280];
    compare(format, slot, first, second, &mut long[0..n])
}

// The checks of the digits in their order. Antenna 2's places count from the slot length.
fn check_digits(format: usize, slot: usize, first: &[u8], second: &[u8]) -> Result<(), Refusal>
    requires { (length first.now ≡ (format_of format).slot) × (length second.now ≡ (format_of format).slot) }
    ensures { verdict_of result ≡ read_body format slot first.now second.now }
{
    let n = first.len() as u32;
    refused_at(first, scan::above(first, 2), Reason::Digit, 0)?;
    refused_at(second, scan::above(second, 2), Reason::Digit, n)?;
    slot_check::check_part(format, slot, first, 0)?;
    let differs = first_difference(format, slot, first, second);
    refused_at(second, differs, Reason::Frame, n)
}

// Whether two runs of one length are the same. One length is worth a look whose length is a number.
fn is_same(s: &[u8], t: &[u8]) -> bool
    requires { length t.now ≡ length s.now }
    ensures { result ≡ true → Every (agree s.now t.now) (length s.now) }
{
    match s.len() {
        80 => scan_diff::same_front(s, t, 80),
        _ => scan_diff::difference(s, t).is_none(),
    }
}

// Whether the first stream is a slot that some fields give, and the second is what it implies: then no check refuses. What it implies is made before the first stream
// is looked at: so it is in memory when it is compared.
fn agrees_in(format: usize, slot: usize, first: &[u8], second: &[u8], implied: &mut [u8]) -> bool
    requires { (length first.now ≡ (format_of format).slot) × (length second.now ≡ (format_of format).slot) × (length implied.old ≡ (format_of format).slot) }
    ensures { result ≡ true → read_body format slot first.now second.now ≡ done }
{
    antenna::second_of(format, slot, first, implied);
    slot_fits::fits(format, slot, first) && is_same(implied, second)
}

// .. with a run for what it implies.
fn agrees(format: usize, slot: usize, first: &[u8], second: &[u8]) -> bool
    requires { (length first.now ≡ (format_of format).slot) × (length second.now ≡ (format_of format).slot) }
    ensures { result ≡ true → read_body format slot first.now second.now ≡ done }
{
    let n = first.len();
    if n <= 160 {
        let mut short = [0u8; 160];
        return agrees_in(format, slot, first, second, &mut short[0..n]);
    }
    let mut long = [0u8; 1280];
    agrees_in(format, slot, first, second, &mut long[0..n])
}

fn check(
    format: usize,
    slot: usize,
    first: &[u8],
    second: &[u8],
    data_length: usize,
    tfci_length: usize,
) -> Result<(), Refusal>
    ensures { verdict_of result ≡ read_verdict format slot first.now second.now data_length tfci_length }
{
    check_head(
        format,
        slot,
        first.len(),
        second.len(),
        data_length,
        tfci_length,
    )?;
    if agrees(format, slot, first, second) {
        return Ok(());
    }
    check_digits(format, slot, first, second)
}

// The fields of both antennas' slots, or the refusal and the runs as they were.
pub fn read(
    format: usize,
    slot: usize,
    first: &[u8],
    second: &[u8],
    data: &mut [u8],
    tfci: &mut [u8],
) -> Result<usize, Refusal>
    ensures { Read format slot first.now second.now «data».old tfci.old (command_of result) «data».new tfci.new }
{
    check(format, slot, first, second, data.len(), tfci.len())?;
    slot_read::take(format, slot, first, data, tfci)
}
