// The paging indicator channel, read (rule, promises and theorems are those of the crate `pich`): docs/RULES.md, 'PICH'; TS 25.211, 5.3.3.10.
#![tactic(auto)]

ghost use Rattle.std.specs.Prelude.{◌≡◌, true, false, ℕ, ◌-◌, ◌*◌, ◌/◌, ◌%◌, ◌<◌, length, get_or, ◌&&◌, leb};
ghost use Rattle.std.specs.Option.{unwrap_or};
ghost use Rattle.run.specs.Answers.{verdict_of};
ghost use Rattle.run.specs.First.{first_bad, all, at_most};
ghost use Rattle.pich.specs.Rule.{is_np, width, indicators_in};
ghost use Rattle.pich.specs.Outcome.{stands, read_head, read_verdict, Read};
ghost use Rattle.pich.specs.Exact.{Gives};

use pich::{Indicator, first_digit, is_np};
use run::{DTX, Reason, Refusal, refused_at, require};

// The first digit that may not stand in a frame: group by group, then the tail.
fn first_misfit(np: usize, frame: &[u8]) -> Option<usize>
    requires { (is_np np ≡ true) × (length frame.now ≡ 300) }
    ensures { unwrap_or result 300 ≡ first_bad (stands np frame.now) 300 }
{
    let width = 288 / np;
    for q in 0..np {
        let start = first_digit(np, Indicator(q));
        let end = start + width;
        if let Some(i) = scan_equal::unlike(&frame[start..end]) {
            return Some(start + i);
        }
    }
    let i = scan_equal::other(&frame[288..300], DTX)?;
    Some(288 + i)
}

fn check_head(np: usize, frame: &[u8], indicators_length: usize) -> Result<(), Refusal>
    ensures { verdict_of result ≡ read_head np frame.now indicators_length }
{
    require(is_np(np), Reason::Np, 0)?;
    require(frame.len() == 300, Reason::Length, 0)?;
    require(indicators_length == np, Reason::Length, 1)?;
    refused_at(frame, scan::above(frame, 2), Reason::Digit, 0)
}

// The checks in their order.
fn check(np: usize, frame: &[u8], indicators_length: usize) -> Result<(), Refusal>
    ensures { verdict_of result ≡ read_verdict np frame.now indicators_length }
{
    check_head(np, frame, indicators_length)?;
    refused_at(frame, first_misfit(np, frame), Reason::Frame, 0)
}

// Each indicator from the first of its digits.
fn read_indicators(np: usize, frame: &[u8], indicators: &mut [u8])
    requires { (is_np np ≡ true) × (length frame.now ≡ 300) × (length indicators.old ≡ np) }
    ensures { indicators.new ≡ indicators_in np frame.now }
{
    for q in 0..np {
        let start = first_digit(np, Indicator(q));
        indicators[q] = frame[start];
    }
}

// The checks in their order, and then the indicators.
fn read_checked(np: usize, frame: &[u8], indicators: &mut [u8]) -> Result<(), Refusal>
    ensures { Read np frame.now indicators.old (verdict_of result) indicators.new }
{
    check(np, frame, indicators.len())?;
    read_indicators(np, frame, indicators);
    Ok(())
}

// What a pair of digits, as the number of the first and 256 times the second, leaves of 65535: a multiple of 257 only where the digits are equal. As the compiler has no
// shorter way to say it, it takes the pair from memory whole, and many pairs at a time.
fn left_of(first: u8, second: u8) -> u16
    ensures { result % 257 ≡ 0 → (first ≡ 255 - result / 257) × (second ≡ 255 - result / 257) }
{
    65535 - (first as u16 + 256 * (second as u16))
}

// The digit of a pair of equal digits.
fn digit_of(left: u16) -> u8
    ensures { result ≡ 255 - left / 257 }
{
    255 - (left / 257) as u8
}

// Each pair of digits as one, where all pairs are of equal digits. A pass that takes no early way out can go many pairs at a time.
fn halve(run: &[u8], half: &mut [u8]) -> bool
    requires { length run.now ≡ 2 * length half.old }
    ensures { result ≡ true → (k : ℕ) → k < length run.now → get_or run.now k 0 ≡ get_or half.new (k / 2) 0 }
{
    let mut good = true;
    for i in 0..half.len() {
        let j = 2 * i;
        let left = left_of(run[j], run[j + 1]);
        if left % 257 != 0 {
            good = false;
        }
        half[i] = digit_of(left);
    }
    good
}

// Whether what was found is 0 and 1: a look whose length is a number, but of 72 digits, of which the compiler would make one of shuffles; there a pass of any length is quicker.
fn are_bits<const NP: usize>(found: &[u8; NP]) -> bool
    ensures { result ≡ (leb NP (length found.now) && all NP (at_most 1 found.now)) }
{
    if NP == 72 {
        return scan::above(found, 1).is_none();
    }
    scan::all_at_most(found, 1, NP)
}

// Where what was found is 0 and 1, and the tail is DTX, it gives the frame, and is kept.
fn keep<const NP: usize>(frame: &[u8], found: &[u8; NP], indicators: &mut [u8]) -> bool
    requires { (is_np NP ≡ true) × (length frame.now ≡ 300) × (length indicators.old ≡ NP) × ((k : ℕ) → k < 288 → get_or frame.now k 0 ≡ get_or found.now (k / width NP) 0) }
    ensures { (result ≡ true → Gives NP indicators.new frame.now) × (result ≡ false → indicators.new ≡ indicators.old) }
{
    if !are_bits(found) {
        return false;
    }
    if !scan_diff::same_front(&frame[288..300], &[DTX; 12], 12) {
        return false;
    }
    indicators.copy_from_slice(found);
    true
}

// The indicators of a frame that is given by some. Of 144 each fills its two digits; those of a frame of fewer are these, halved again and again. As Np is a number and not a
// variable, so is every length.
fn take<const NP: usize>(frame: &[u8], indicators: &mut [u8]) -> bool
    requires { (is_np NP ≡ true) × (length frame.now ≡ 300) × (length indicators.old ≡ NP) }
    ensures { (result ≡ true → Gives NP indicators.new frame.now) × (result ≡ false → indicators.new ≡ indicators.old) }
{
    let mut of_144 = [0; 144];
    if !halve(&frame[..288], &mut of_144) {
        return false;
    }
    if NP == 144 {
        return keep(frame, &of_144, indicators);
    }
    let mut of_72 = [0; 72];
    if !halve(&of_144, &mut of_72) {
        return false;
    }
    if NP == 72 {
        return keep(frame, &of_72, indicators);
    }
    let mut of_36 = [0; 36];
    if !halve(&of_72, &mut of_36) {
        return false;
    }
    if NP == 36 {
        return keep(frame, &of_36, indicators);
    }
    let mut of_18 = [0; 18];
    halve(&of_36, &mut of_18) && keep(frame, &of_18, indicators)
}

fn take_given(np: usize, frame: &[u8], indicators: &mut [u8]) -> bool
    requires { (is_np np ≡ true) × (length frame.now ≡ 300) × (length indicators.old ≡ np) }
    ensures { (result ≡ true → Gives np indicators.new frame.now) × (result ≡ false → indicators.new ≡ indicators.old) }
{
    match np {
        18 => take::<18>(frame, indicators),
        36 => take::<36>(frame, indicators),
        72 => take::<72>(frame, indicators),
        _ => take::<144>(frame, indicators),
    }
}

// Np is good, and both lengths are right.
fn lengths_fit(np: usize, frame_length: usize, indicators_length: usize) -> bool
    ensures { result ≡ true → (is_np np ≡ true) × (frame_length ≡ 300) × (indicators_length ≡ np) }
{
    frame_length == 300 && indicators_length == np && is_np(np)
}

// The indicators of a frame, or the refusal and the indicators as they were. What is given is accepted at once. Else the checks in their order find the refusal.
pub fn read(np: usize, frame: &[u8], indicators: &mut [u8]) -> Result<(), Refusal>
    ensures { Read np frame.now indicators.old (verdict_of result) indicators.new }
{
    if lengths_fit(np, frame.len(), indicators.len()) && take_given(np, frame, indicators) {
        return Ok(());
    }
    read_checked(np, frame, indicators)
}
