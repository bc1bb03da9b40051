// The uplink DPDCH: slots and frames, mapped and read. docs/RULES.md, 'Uplink DPDCH'; TS 25.211, 5.2.1.1, table 1. Its only field is data, so each call checks a run and copies it.
#![tactic(auto)]

ghost use Rattle.std.specs.Prelude.{◌≡◌, ◌≤◌, ◌&&◌, eqb, leb, length};
ghost use Rattle.run.specs.Answers.{verdict_of};
ghost use Rattle.run.specs.First.{all, at_most};
ghost use Rattle.dpch.specs.Uplink.{dpdch_size};
ghost use Rattle.dpdch.specs.Outcome.{slots_verdict, Carry, Map, Read, FrameMap, FrameRead};

use run::{Reason, Refusal, refused_at};

// The digits of a slot, 0 where there is no such format.
pub fn size_of(format: usize) -> usize
    ensures { result ≡ dpdch_size format }
{
    match format {
        0 => 10,
        1 => 20,
        2 => 40,
        3 => 80,
        4 => 160,
        5 => 320,
        6 => 640,
        _ => 0,
    }
}

// Whether these are N digits and all of them bits. Short runs are worth a look whose length is a number.
pub fn are_few_bits<const N: usize>(s: &[u8]) -> bool
    ensures { result ≡ (eqb (length s.now) N && (leb N (length s.now) && all N (at_most 1 s.now))) }
{
    s.len() == N && scan::all_at_most(s, 1, N)
}

// The checks of so many slots.
fn check(slots: usize, format: usize, input: &[u8], out_length: usize) -> Result<(), Refusal>
    requires { slots ≤ 15 }
    ensures { verdict_of result ≡ slots_verdict slots format input.now out_length }
{
    let n = slots * size_of(format);
    dpch::check_frame_head(6, format, &[input.len() == n, out_length == n])?;
    // a slot or a frame of format 0
    if are_few_bits::<10>(input) || are_few_bits::<150>(input) {
        return Ok(());
    }
    refused_at(input, scan::above(input, 1), Reason::Digit, 0)
}

// The digits of so many slots, copied, or the refusal and `out` as it was.
fn carry(slots: usize, format: usize, input: &[u8], out: &mut [u8]) -> Result<(), Refusal>
    requires { slots ≤ 15 }
    ensures { Carry slots format input.now out.old (verdict_of result) out.new }
{
    check(slots, format, input, out.len())?;
    write::copy(out, input);
    Ok(())
}

// The slot of the data, or the refusal and `out` as it was.
pub fn map(format: usize, data: &[u8], out: &mut [u8]) -> Result<(), Refusal>
    ensures { Map format «data».now out.old (verdict_of result) out.new }
{
    carry(1, format, data, out)
}

// The data of a slot, or the refusal and `data` as it was.
pub fn read(format: usize, xs: &[u8], data: &mut [u8]) -> Result<(), Refusal>
    ensures { Read format xs.now «data».old (verdict_of result) «data».new }
{
    carry(1, format, xs, data)
}

// The frame of the data, or the refusal and `out` as it was.
pub fn frame_map(format: usize, data: &[u8], out: &mut [u8]) -> Result<(), Refusal>
    ensures { FrameMap format «data».now out.old (verdict_of result) out.new }
{
    carry(15, format, data, out)
}

// The data of a frame, or the refusal and `data` as it was.
pub fn frame_read(format: usize, xs: &[u8], data: &mut [u8]) -> Result<(), Refusal>
    ensures { FrameRead format xs.now «data».old (verdict_of result) «data».new }
{
    carry(15, format, xs, data)
}
