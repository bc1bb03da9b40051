// Space time block coding for two antennas, of digits (rule, promises and theorems are those of the crate `sttd`): docs/RULES.md, 'STTD'; TS 25.211, 5.3.1.1.1.
#![tactic(auto)]

ghost use Rattle.std.specs.Prelude.{◌≡◌, min, length};
ghost use Rattle.run.specs.Answers.{verdict_of};
ghost use Rattle.run.specs.First.{Every, at_most};
ghost use Rattle.sttd.specs.Rule.{bar_digit};
ghost use Rattle.sttd.specs.Outcome.{digits_verdict, Digits, encoded_over};

use run::{Reason, Refusal, refused_at, require};

// 0 and 1 change places, by their lowest bit; DTX stays.
fn bar(d: u8) -> u8
    ensures { result ≡ bar_digit d }
{
    d ^ ((d < 2) as u8)
}

// As many whole blocks of four as both runs have, encoded over the front of `out`, whatever they hold. The index is counted by hand: `for k in 0..n / 4` takes a fifth longer.
fn encode_any(input: &[u8], out: &mut [u8])
    ensures { out.new ≡ encoded_over input.now out.old }
{
    let n = input.len().min(out.len());
    let end = 4 * (n / 4);
    let mut i = 0;
    while i < end {
        let b0 = input[i];
        let b1 = input[i + 1];
        let b2 = input[i + 2];
        let b3 = input[i + 3];
        out[i] = bar(b2);
        out[i + 1] = b3;
        out[i + 2] = b0;
        out[i + 3] = bar(b1);
        i += 4;
    }
}

// One block of digits. The lowest bit of b1 and b2 changes, and the cap brings DTX back, which it leaves where it stood: so all digits go the same way.
fn encode_block(input: &[u8], out: &mut [u8])
    requires { (length input.now ≡ 4) × (length out.old ≡ 4) × Every (at_most 2 input.now) (length input.now) }
    ensures { out.new ≡ encoded_over input.now out.old }
{
    let b0 = input[0];
    let b1 = input[1];
    let b2 = input[2];
    let b3 = input[3];
    out[0] = (b2 ^ 1).min(2);
    out[1] = b3.min(2);
    out[2] = b0.min(2);
    out[3] = (b1 ^ 1).min(2);
}

// Two blocks. All eight digits are read before one is written: so the compiler takes them at once, though it does not know that the runs lie apart.
fn encode_two(input: &[u8], out: &mut [u8])
    requires { (length input.now ≡ 8) × (length out.old ≡ 8) × Every (at_most 2 input.now) (length input.now) }
    ensures { out.new ≡ encoded_over input.now out.old }
{
    let b0 = input[0];
    let b1 = input[1];
    let b2 = input[2];
    let b3 = input[3];
    let b4 = input[4];
    let b5 = input[5];
    let b6 = input[6];
    let b7 = input[7];
    out[0] = (b2 ^ 1).min(2);
    out[1] = b3.min(2);
    out[2] = b0.min(2);
    out[3] = (b1 ^ 1).min(2);
    out[4] = (b6 ^ 1).min(2);
    out[5] = b7.min(2);
    out[6] = b4.min(2);
    out[7] = (b5 ^ 1).min(2);
}

// The same for digits: two blocks at a time, and then the one that is left.
fn encode_digits(input: &[u8], out: &mut [u8])
    requires { Every (at_most 2 input.now) (length input.now) }
    ensures { out.new ≡ encoded_over input.now out.old }
{
    let n = input.len().min(out.len());
    let twos = n / 8;
    for k in 0..twos {
        let i = 8 * k;
        let e = i + 8;
        encode_two(&input[i..e], &mut out[i..e]);
    }
    let i = 8 * twos;
    let e = i + 4;
    if e <= n {
        encode_block(&input[i..e], &mut out[i..e]);
    }
}

// As many whole blocks of four as both runs have, encoded over the front of `out`.
pub fn encode(input: &[u8], out: &mut [u8])
    ensures { out.new ≡ encoded_over input.now out.old }
{
    match scan::above(input, 2) {
        None => encode_digits(input, out),
        Some(_) => encode_any(input, out),
    }
}

// The checks in their order.
fn check(input: &[u8], out_length: usize) -> Result<(), Refusal>
    ensures { verdict_of result ≡ digits_verdict input.now out_length }
{
    require(input.len() % 4 == 0, Reason::Length, 0)?;
    require(out_length == input.len(), Reason::Length, 1)?;
    refused_at(input, scan::above(input, 2), Reason::Digit, 0)
}

// Antenna 2's digits for antenna 1's, or the refusal and the output as it was.
pub fn digits(input: &[u8], out: &mut [u8]) -> Result<(), Refusal>
    ensures { Digits input.now out.old (verdict_of result) out.new }
{
    check(input, out.len())?;
    encode_digits(input, out);
    Ok(())
}
