// The primary common control physical channel on two antennas, read (rule, promises and theorems are those of the crate `pccpch`): docs/RULES.md, 'P-CCPCH'; TS 25.211, 5.3.3.3 and 5.3.3.3.1.
#![tactic(auto)]

ghost use Rattle.std.specs.List.{position, zip};
ghost use Rattle.std.specs.Prelude.{◌≡◌, ◌==◌, true, false, not, ◌&&◌, eqb, length};
ghost use Rattle.run.specs.Answers.{verdict_of};
ghost use Rattle.run.specs.First.{all, Every, at_most};
ghost use Rattle.run.specs.Refusals.{frame_refused};
ghost use Rattle.run.specs.Verdicts.{refused, done, each};
ghost use Rattle.pccpch.specs.Rule.{second_of, data_in};
ghost use Rattle.pccpch.specs.Outcome.{read_head, right_kind, read_body, read_verdict, Read};
ghost use Rattle.pccpch_read.specs.Method.{begins_at, given};

use run::{DTX, Reason, Refusal, refused_at, require};

// The checks of the lengths, and of each digit.
fn check_head(antenna1: &[u8], antenna2: &[u8], data_length: usize) -> Result<(), Refusal>
    ensures { verdict_of result ≡ read_head antenna1.now antenna2.now data_length }
{
    require(antenna1.len() == 300, Reason::Length, 0)?;
    require(antenna2.len() == 300, Reason::Length, 1)?;
    require(data_length == 270, Reason::Length, 2)?;
    refused_at(antenna1, scan::above(antenna1, 2), Reason::Digit, 0)?;
    refused_at(antenna2, scan::above(antenna2, 2), Reason::Digit, 300)
}

// A digit that no data gives, at this place.
fn not_given(place: usize) -> Result<(), Refusal>
    ensures { verdict_of result ≡ refused frame_refused place }
{
    Err(Refusal {
        reason: Reason::Frame,
        place,
    })
}

// Slot by slot: its first two digits are to be DTX, and its other 18 are not.
fn check_kinds(antenna1: &[u8]) -> Result<(), Refusal>
    requires { (length antenna1.now ≡ 300) × Every (at_most 2 antenna1.now) 300 }
    ensures { verdict_of result ≡ each 0 frame_refused (right_kind antenna1.now) 300 }
{
    for slot in 0..15 {
        let start = 20 * slot;
        let first = start + 2;
        if let Some(i) = scan_equal::other(&antenna1[start..first], DTX) {
            return not_given(start + i);
        }
        if let Some(j) = scan::above(&antenna1[first..first + 18], 1) {
            return not_given(first + j);
        }
    }
    Ok(())
}

// Each slot's 18 digits behind its first two.
fn take_data(frame: &[u8], data: &mut [u8])
    requires { (length frame.now ≡ 300) × (length «data».old ≡ 270) }
    ensures { «data».new ≡ data_in frame.now }
{
    for slot in 0..15 {
        let from = 20 * slot + 2;
        let to = 18 * slot;
        write::copy(&mut data[to..to + 18], &frame[from..from + 18]);
    }
}

// Where antenna 2 differs from what antenna 1 implies.
fn first_difference(antenna1: &[u8], antenna2: &[u8]) -> Option<usize>
    requires { (length antenna1.now ≡ 300) × (length antenna2.now ≡ 300) }
    ensures { result ≡ position (λ pair. not (pair.0 == pair.1)) (zip (second_of (data_in antenna1.now)) antenna2.now) }
{
    let mut data = [0u8; 270];
    take_data(antenna1, &mut data);
    let implied = pccpch::second_of(data);
    scan_diff::difference(&implied, antenna2)
}

// The checks of the frames as a whole.
fn check_body(antenna1: &[u8], antenna2: &[u8]) -> Result<(), Refusal>
    requires { (length antenna1.now ≡ 300) × (length antenna2.now ≡ 300) × Every (at_most 2 antenna1.now) 300 }
    ensures { verdict_of result ≡ read_body antenna1.now antenna2.now }
{
    check_kinds(antenna1)?;
    let found = first_difference(antenna1, antenna2);
    refused_at(antenna2, found, Reason::Frame, 300)
}

// The checks in their order.
fn check(antenna1: &[u8], antenna2: &[u8], data_length: usize) -> Result<(), Refusal>
    ensures { verdict_of result ≡ read_verdict antenna1.now antenna2.now data_length }
{
    check_head(antenna1, antenna2, data_length)?;
    check_body(antenna1, antenna2)
}

// Both digits are DTX.
fn both_dtx(a: u8, b: u8) -> bool
    ensures { result ≡ (eqb a 2 && eqb b 2) }
{
    a == DTX && b == DTX
}

// Whether each slot begins with two digits of DTX.
fn begins_dtx(frame: &[u8]) -> bool
    requires { length frame.now ≡ 300 }
    ensures { result ≡ all 15 (begins_at frame.now) }
{
    let mut good = true;
    for slot in 0..15 {
        if !both_dtx(frame[20 * slot], frame[20 * slot + 1]) {
            good = false;
        }
    }
    good
}

// Whether the data of antenna 1 gives both frames: then no check can refuse. Antenna 2's frame is made first, and compared last, many digits at a time: it is in memory by then.
fn is_given(antenna1: &[u8], antenna2: &[u8], digits: [u8; 270]) -> bool
    requires { length antenna1.now ≡ 300 }
    ensures { result ≡ given antenna1.now antenna2.now digits }
{
    let implied = pccpch::second_of(digits);
    begins_dtx(antenna1)
        && scan::all_at_most(&digits, 1, 270)
        && scan_diff::same_front(&implied, antenna2, 300)
}

// The data of antenna 1, where it gives both frames.
fn take_given(antenna1: &[u8], antenna2: &[u8], data: &mut [u8]) -> bool
    requires { (length antenna1.now ≡ 300) × (length antenna2.now ≡ 300) × (length «data».old ≡ 270) }
    ensures { (result ≡ true → (read_verdict antenna1.now antenna2.now 270 ≡ done) × («data».new ≡ data_in antenna1.now)) × (result ≡ false → «data».new ≡ «data».old) }
{
    let mut found = [0u8; 270];
    take_data(antenna1, &mut found);
    if is_given(antenna1, antenna2, found) {
        data.copy_from_slice(&found);
        return true;
    }
    false
}

// The checks in their order, and then the data.
fn read_checked(antenna1: &[u8], antenna2: &[u8], data: &mut [u8]) -> Result<(), Refusal>
    ensures { Read antenna1.now antenna2.now «data».old (verdict_of result) «data».new }
{
    check(antenna1, antenna2, data.len())?;
    take_data(antenna1, data);
    Ok(())
}

// The three lengths are those of two frames and their data.
fn lengths_fit(length1: usize, length2: usize, data_length: usize) -> bool
    ensures { result ≡ ((eqb length1 300 && eqb length2 300) && eqb data_length 270) }
{
    length1 == 300 && length2 == 300 && data_length == 270
}

// The data of both antennas' frames, or the refusal and the data as it was. What is given is accepted at once. Else the checks in their order find the refusal.
pub fn read(antenna1: &[u8], antenna2: &[u8], data: &mut [u8]) -> Result<(), Refusal>
    ensures { Read antenna1.now antenna2.now «data».old (verdict_of result) «data».new }
{
    if lengths_fit(antenna1.len(), antenna2.len(), data.len()) {
        if take_given(antenna1, antenna2, data) {
            return Ok(());
        }
    }
    read_checked(antenna1, antenna2, data)
}
