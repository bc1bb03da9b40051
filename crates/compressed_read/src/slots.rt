// The slots of a compressed frame, one after the other: each transmitted one is lent its own part of every run.
ghost use Rattle.std.specs.Prelude.{◌≡◌, cond, ◌+◌, ◌*◌, ◌<◌, ◌≤◌, length};
ghost use Rattle.run.specs.Answers.{verdict_of};
ghost use Rattle.run.specs.Verdicts.{chain};
ghost use Rattle.dpch.specs.Compressed.{format_in};
ghost use Rattle.slot.specs.Outcome.{part_verdict};
ghost use Rattle.compressed.specs.Rule.{is_missing, number_of, data_in, tfci_in, commands_in};
ghost use Rattle.compressed.specs.Outcome.{silent_verdict, slot_verdict};
ghost use Rattle.compressed.specs.Ready.{Room, Bits, NoneBelow};

use run::{DTX, Reason, Refusal, refused_at};
use slot::row_sizes;

// A digit that none of the run is below. A loop that takes no early way out can go many digits at a time.
fn lowest(s: &[u8]) -> u8
    ensures { NoneBelow result s.now }
{
    let mut low = 255;
    for i in 0..s.len() {
        if s[i] < low {
            low = s[i];
        }
    }
    low
}

// The checks of a missing slot's digits, which count their places from `base`. Where all is silent there is no place to look for.
fn check_silent(xs: &[u8], base: u32) -> Result<(), Refusal>
    ensures { verdict_of result ≡ silent_verdict xs.now base }
{
    refused_at(xs, scan::above(xs, DTX), Reason::Digit, base)?;
    if DTX <= lowest(xs) {
        return Ok(());
    }
    refused_at(xs, scan_equal::other(xs, DTX), Reason::Frame, base)
}

// .. of slot k, missing or not.
fn check_slot(
    kind: usize,
    format: usize,
    first: usize,
    missing: usize,
    k: usize,
    xs: &[u8],
    base: u32,
) -> Result<(), Refusal>
    ensures { verdict_of result ≡ cond (is_missing first missing k) (silent_verdict xs.now base) (part_verdict (format_in kind format) k xs.now base) }
{
    if compressed::is_missing(first, missing, k) {
        check_silent(xs, base)
    } else {
        slot_check::check_row(kind, format, k, xs, base)
    }
}

// The first slot whose digits are refused.
pub(crate) fn check_digits(
    kind: usize,
    format: usize,
    first: usize,
    missing: usize,
    xs: &[u8],
) -> Result<(), Refusal>
    requires { length xs.now ≡ 15 * (format_in kind format).slot }
    ensures { verdict_of result ≡ chain 15 (slot_verdict (format_in kind format) first missing xs.now) }
{
    let s = row_sizes(kind, format);
    let w = s.slot;
    for k in 0..15 {
        let i = k * w;
        let j = i + w;
        check_slot(kind, format, first, missing, k, &xs[i..j], i as u32)?;
    }
    Ok(())
}

// The number of the i-th transmitted slot.
fn number_of(first: usize, missing: usize, i: usize) -> usize
    requires { (missing ≤ 15) × (i < 15) }
    ensures { result ≡ number_of first missing i }
{
    if i < first { i } else { i + missing }
}

// The fields of each transmitted slot into their parts of the runs.
pub(crate) fn take(
    kind: usize,
    format: usize,
    first: usize,
    missing: usize,
    xs: &[u8],
    data: &mut [u8],
    tfci: &mut [u8],
    commands: &mut [u8],
)
    requires { Room (format_in kind format) first missing (length «data».old) (length tfci.old) (length commands.old) (length xs.now) × Bits (format_in kind format) first missing xs.now }
    ensures { («data».new ≡ data_in (format_in kind format) first missing xs.now) × (tfci.new ≡ tfci_in (format_in kind format) first missing xs.now) × (commands.new ≡ commands_in (format_in kind format) first missing xs.now) }
{
    let s = row_sizes(kind, format);
    let n = s.data;
    let m = s.tfci;
    let w = s.slot;
    let count = compressed::transmitted(missing);
    for t in 0..count {
        let k = number_of(first, missing, t);
        let a = t * n;
        let e = a + n;
        let b = t * m;
        let c = b + m;
        let i = k * w;
        let j = i + w;
        let taken = slot_read::take_row(kind, format, &xs[i..j], &mut data[a..e], &mut tfci[b..c]);
        commands[t] = taken as u8;
    }
}
