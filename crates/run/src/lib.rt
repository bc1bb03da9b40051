// Checks and what they refuse with, and what is said of runs of digits. No channel's rule stands here.
#![tactic(auto)]

ghost use Rattle.std.specs.List.{position};
ghost use Rattle.std.specs.Prelude.{◌≡◌, not, [], ◌∷◌, ◌+◌, min, leb, length};
ghost use Rattle.std.specs.Option.{unwrap_or};
ghost use Rattle.run.specs.Answers.{number_of, verdict_of};
ghost use Rattle.run.specs.Verdicts.{or_else, unless, lengths};

pub mod refusal;
pub mod verdict;

pub use refusal::{Reason, Refusal};
pub use verdict::{Verdict, found, or_else, unless};

// DTX as a digit: nothing is sent (docs/RULES.md, 'Digits').
pub const DTX: u8 = 2;

// Refused for this reason at this place where the test fails.
pub fn require(ok: bool, reason: Reason, place: usize) -> Result<(), Refusal>
    ensures { verdict_of result ≡ unless ok (number_of reason) place }
{
    if ok {
        Ok(())
    } else {
        Err(Refusal { reason, place })
    }
}

// The first run whose length is not right.
fn first_wrong(right: &[bool]) -> Option<usize>
    ensures { result ≡ position not right.now }
{
    right.iter().position(|ok| !*ok)
}

// Refused for a wrong length at the first run that has one: whether each of a call's runs has its own, in the order of the call.
pub fn lengths_are(right: &[bool]) -> Result<(), Refusal>
    ensures { verdict_of result ≡ lengths right.now }
{
    match first_wrong(right) {
        None => Ok(()),
        Some(place) => require(false, Reason::Length, place),
    }
}

// Refused at the place of the run that a scan found, counted from `base`.
pub fn refused_at(s: &[u8], found: Option<usize>, reason: Reason, base: u32) -> Result<(), Refusal>
    ensures { verdict_of result ≡ unless (leb (length s.now) (unwrap_or found (length s.now))) (number_of reason) (base + unwrap_or found (length s.now)) }
{
    let i = found.unwrap_or(s.len());
    if s.len() <= i {
        return Ok(());
    }
    Err(Refusal {
        reason,
        place: base as usize + i,
    })
}
