// The primary common control physical channel on two antennas, mapped: docs/RULES.md, 'P-CCPCH'; TS 25.211, 5.3.3.3 and 5.3.3.3.1.
#![tactic(auto)]

ghost use Rattle.std.specs.Prelude.{◌≡◌, length};
ghost use Rattle.run.specs.Answers.{verdict_of};
ghost use Rattle.pccpch.specs.Rule.{frame_of, coded, second_of};
ghost use Rattle.pccpch.specs.Outcome.{map_verdict, Map};
ghost use Rattle.pccpch.specs.Method.{fitting};

use run::{DTX, Reason, Refusal, refused_at, require};

// The frame starts as DTX, takes each slot's 18 digits behind the slot's first two, and is copied to the lent frame. That the first two are DTX is said again in each
// slot: so the compiler knows every digit of the frame, and writes the lent one at once.
fn write_frame(digits: &[u8], antenna: &mut [u8])
    requires { (length digits.now ≡ 270) × (length antenna.old ≡ 300) }
    ensures { antenna.new ≡ frame_of digits.now }
{
    let mut frame = [DTX; 300];
    for slot in 0..15 {
        let from = 18 * slot;
        let start = 20 * slot;
        let to = start + 2;
        frame[start] = DTX;
        frame[start + 1] = DTX;
        write::copy(&mut frame[to..to + 18], &digits[from..from + 18]);
    }
    write::copy(&mut antenna[0..300], &frame);
}

// Antenna 2's digits: STTD over digits 0 to 267 in fours, whatever slots they stand in; the last two stay as they are.
fn code(digits: &[u8], out: &mut [u8])
    requires { (length digits.now ≡ 270) × (length out.old ≡ 270) }
    ensures { out.new ≡ coded digits.now }
{
    sttd_digits::encode(&digits[0..268], &mut out[0..268]);
    out[268] = digits[268];
    out[269] = digits[269];
}

// The frame of the digits, where a run is lent that is one.
fn write_first(digits: &[u8], antenna: &mut [u8])
    requires { length digits.now ≡ 270 }
    ensures { length antenna.old ≡ 300 → antenna.new ≡ frame_of digits.now }
{
    if antenna.len() == 300 {
        write_frame(digits, antenna);
    }
}

// Both frames, or antenna 2's alone: it is one function for both, so that the compiler keeps it in one piece. Antenna 2's digits come first: they are in memory when they are asked for.
fn write_both(data: &[u8], antenna1: &mut [u8], antenna2: &mut [u8])
    requires { (length «data».now ≡ 270) × (length antenna2.old ≡ 300) }
    ensures { (length antenna1.old ≡ 300 → antenna1.new ≡ frame_of «data».now) × (antenna2.new ≡ second_of «data».now) }
{
    let mut coded = [0u8; 270];
    code(data, &mut coded);
    write_first(data, antenna1);
    write_frame(&coded, antenna2);
}

// What antenna 2 carries of 270 digits, whatever they are.
pub fn second_of(digits: [u8; 270]) -> [u8; 300]
    ensures { result ≡ second_of digits }
{
    let mut none = [DTX; 1];
    let mut second = [DTX; 300];
    write_both(&digits, &mut none, &mut second);
    second
}

// Whether no check refuses: the lengths are right, and every digit is 0 or 1. It is asked of 270 digits, not of as many as there are, and where it holds the lengths are
// numbers to the compiler.
fn fits(data: &[u8], length1: usize, length2: usize) -> bool
    ensures { result ≡ fitting «data».now length1 length2 }
{
    data.len() == 270 && length1 == 300 && length2 == 300 && scan::all_at_most(data, 1, 270)
}

// The checks in their order.
fn check(data: &[u8], length1: usize, length2: usize) -> Result<(), Refusal>
    ensures { verdict_of result ≡ map_verdict «data».now length1 length2 }
{
    require(data.len() == 270, Reason::Length, 0)?;
    require(length1 == 300, Reason::Length, 1)?;
    require(length2 == 300, Reason::Length, 2)?;
    refused_at(data, scan::above(data, 1), Reason::Digit, 0)
}

// The frames of both antennas, or the refusal and the frames as they were.
pub fn map(data: &[u8], antenna1: &mut [u8], antenna2: &mut [u8]) -> Result<(), Refusal>
    ensures { Map «data».now antenna1.old antenna2.old (verdict_of result) antenna1.new antenna2.new }
{
    if fits(data, antenna1.len(), antenna2.len()) {
        write_both(data, antenna1, antenna2);
        return Ok(());
    }
    check(data, antenna1.len(), antenna2.len())
}
