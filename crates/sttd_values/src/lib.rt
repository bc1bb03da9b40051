// Space time block coding for two antennas, of AICH values (rule, promises and theorems are those of the crate `sttd`): docs/RULES.md, 'STTD';
// TS 25.211, 5.3.1.1.1.
#![tactic(auto)]

ghost use Rattle.std.specs.Prelude.{◌≡◌, true, length, neg_ℤ};
ghost use Rattle.run.specs.Answers.{verdict_of};
ghost use Rattle.run.specs.First.{Every};
ghost use Rattle.sttd.specs.Rule.{sttd};
ghost use Rattle.sttd.specs.Outcome.{value_in, values_in, values_verdict, Values};

use run::{Reason, Refusal, require};

// The checks in their order.
fn check(input: &[i32], out_length: usize) -> Result<(), Refusal>
    ensures { verdict_of result ≡ values_verdict input.now out_length }
{
    require(input.len() == 32, Reason::Length, 0)?;
    require(out_length == 32, Reason::Length, 1)?;
    match range::outside(input, -16, 16) {
        None => Ok(()),
        Some(place) => Err(Refusal {
            reason: Reason::Range,
            place,
        }),
    }
}

// The bar of a value.
fn negated(v: i32) -> i32
    requires { value_in v ≡ true }
    ensures { result ≡ neg_ℤ v }
{
    -v
}

// The eight blocks of 32 values.
fn encode_values(input: &[i32], out: &mut [i32])
    requires { (length input.now ≡ 32) × (length out.old ≡ 32) × Every (values_in input.now) 32 }
    ensures { out.new ≡ sttd neg_ℤ input.now }
{
    for k in 0..8 {
        let i = 4 * k;
        let b0 = input[i];
        let b1 = input[i + 1];
        let b2 = input[i + 2];
        let b3 = input[i + 3];
        out[i] = negated(b2);
        out[i + 1] = b3;
        out[i + 2] = b0;
        out[i + 3] = negated(b1);
    }
}

// Antenna 2's AICH values for antenna 1's, or the refusal and the output as it was.
pub fn values(input: &[i32], out: &mut [i32]) -> Result<(), Refusal>
    ensures { Values input.now out.old (verdict_of result) out.new }
{
    check(input, out.len())?;
    encode_values(input, out);
    Ok(())
}
