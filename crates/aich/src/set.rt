// The set of signatures that a cell offers: docs/RULES.md, 'AICH'; TS 25.211, 5.3.3.7.
ghost use Rattle.std.specs.Prelude.{◌<◌, ◌≡◌, ◌||◌, cond, length, pos};
ghost use Rattle.run.specs.Answers.{verdict_of};
ghost use Rattle.run.specs.First.{first_bad, all};
ghost use Rattle.whole.specs.Equal.{eq_z};
ghost use Rattle.aich.specs.Rule.{offers, allows};
ghost use Rattle.aich.specs.Outcome.{set_verdict};

use run::{Reason, Refusal};

// Signature s may have this indicator: it is 0, or bit s of the set is 1.
fn allowed(available: u32, s: usize, indicator: i32) -> bool
    requires { s < 16 }
    ensures { result ≡ (offers available s || eq_z indicator (pos 0)) }
{
    (available >> s) % 2 == 1 || indicator == 0
}

// The indicator of a signature that is not available, and 0 for one that is.
fn stray(available: u32, s: usize, indicator: i32) -> i32
    requires { s < 16 }
    ensures { result ≡ cond (offers available s) (pos 0) indicator }
{
    if (available >> s) % 2 == 1 {
        0
    } else {
        indicator
    }
}

// Whether every signature may have its indicator. Those that may not are laid over each other bit by bit, which leaves 0 only where each is 0: so the loop goes four signatures at a time, where
// a branch for each bit of the set would go one by one. There are sixteen indicators, so that `set` is the set: added so, the compiler does not see that it came from 16 bits, of which it
// would ask the highest by its sign, apart from the others.
fn none_stray(available: u32, indicators: &[i32]) -> bool
    requires { length indicators.now ≡ 16 }
    ensures { result ≡ all 16 (allows available indicators.now) }
{
    let set = available + (indicators.len() - 16) as u32;
    let mut strays = 0i32;
    for s in 0..16 {
        strays = strays | stray(set, s, indicators[s]);
    }
    strays == 0
}

// The lowest signature that may not have its indicator, or 16: the signatures are gone through from the highest on. It is asked for only where there is one, and apart from
// `none_stray`: the compiler would let the two share what they read, and go one by one.
fn first_stray(available: u32, indicators: &[i32]) -> usize
    requires { length indicators.now ≡ 16 }
    ensures { result ≡ first_bad (allows available indicators.now) 16 }
{
    let mut first = 16;
    for i in 0..16 {
        let s = 15 - i;
        if !allowed(available, s, indicators[s]) {
            first = s;
        }
    }
    first
}

// Refused at the lowest signature that may not have its indicator.
pub(crate) fn check(available: u32, indicators: &[i32]) -> Result<(), Refusal>
    requires { length indicators.now ≡ 16 }
    ensures { verdict_of result ≡ set_verdict available indicators.now }
{
    if none_stray(available, indicators) {
        return Ok(());
    }
    Err(Refusal {
        reason: Reason::Signature,
        place: first_stray(available, indicators),
    })
}
