// The AICH combiner for two antennas: docs/RULES.md, 'Combiner'.
#![tactic(auto)]

ghost use Rattle.std.specs.Prelude.{◌≡◌, length};
ghost use Rattle.run.specs.Answers.{verdict_of};
ghost use Rattle.run.specs.Refusals.{range_refused};
ghost use Rattle.run.specs.Verdicts.{each};
ghost use Rattle.correlator.specs.Complexes.{cx};
ghost use Rattle.correlator.specs.Method.{Small};
ghost use Rattle.combiner.specs.Outcome.{gain_in, part_in, is_zero, some_gain, combine_head, combine_body, Combine};

use correlator::{Complex, Gain};
use run::{Reason, Refusal, require};

// A gain part is in range.
fn gain_in(part: i64) -> bool
    ensures { result ≡ gain_in part }
{
    range::between(part, -4096, 4096)
}

fn is_zero(h: Complex) -> bool
    ensures { result ≡ is_zero h }
{
    h.re == 0 && h.im == 0
}

// Not both gains are zero.
fn some_gain(h1: Complex, h2: Complex) -> bool
    ensures { result ≡ some_gain h1 h2 }
{
    !(is_zero(h1) && is_zero(h2))
}

fn check_head(received_length: usize, results_length: usize) -> Result<(), Refusal>
    ensures { verdict_of result ≡ combine_head received_length results_length }
{
    require(received_length == 32, Reason::Length, 0)?;
    require(results_length == 16, Reason::Length, 1)
}

// The places of the received parts stand behind those of the gains.
fn check_parts(received: &[i32]) -> Result<(), Refusal>
    requires { length received.now ≡ 32 }
    ensures { verdict_of result ≡ each 4 range_refused (part_in received.now) 32 }
{
    match range::outside(received, -1048576, 1048576) {
        None => Ok(()),
        Some(i) => require(false, Reason::Range, 4 + i),
    }
}

fn check_body(h1: Complex, h2: Complex, received: &[i32]) -> Result<(), Refusal>
    requires { length received.now ≡ 32 }
    ensures { verdict_of result ≡ combine_body h1 h2 received.now }
{
    require(gain_in(h1.re), Reason::Range, 0)?;
    require(gain_in(h1.im), Reason::Range, 1)?;
    require(gain_in(h2.re), Reason::Range, 2)?;
    require(gain_in(h2.im), Reason::Range, 3)?;
    check_parts(received)?;
    require(some_gain(h1, h2), Reason::Gains, 0)
}

// A gain in range, in 16 bits.
fn narrow(h: Complex) -> Gain
    requires { Small 4096 h }
    ensures { cx result.re result.im ≡ h }
{
    Gain {
        re: h.re as i16,
        im: h.im as i16,
    }
}

// The number of each signature, or the refusal and the results as they were.
pub fn combine(
    h1: Complex,
    h2: Complex,
    received: &[i32],
    results: &mut [i64],
) -> Result<(), Refusal>
    ensures { Combine h1 h2 received.now results.old (verdict_of result) results.new }
{
    check_head(received.len(), results.len())?;
    check_body(h1, h2, received)?;
    let mut parts = [0i32; 32];
    parts.copy_from_slice(received);
    let numbers = correlator::numbers(narrow(h1), narrow(h2), parts);
    results.copy_from_slice(&numbers);
    Ok(())
}
