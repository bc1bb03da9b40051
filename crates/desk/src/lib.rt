// The random access desk, fresh, and its distances: docs/RULES.md, 'The random access desk'; TS 25.211, 5.3.3.7 and 7.3.
#![tactic(auto)]

ghost use Rattle.desk.specs.Answers.{distance_of};
ghost use Rattle.desk.specs.Outcome.{Fresh, ToAich, ToMessage};
ghost use Rattle.desk.specs.Method.{DistanceIs};

use run::{Reason, Refusal, require};

// The signature served last.
#[derive(Clone, Copy)]
pub struct Desk {
    pub last: usize,
}

// A desk that has served nobody: it starts from signature 0.
pub fn fresh() -> Desk
    ensures { Fresh result }
{
    Desk { last: 15 }
}

// The distance of a timing, of which there are two: it is short where the timing is 0, and long where it is 1.
fn distance(timing: usize, short: usize, long: usize) -> Result<usize, Refusal>
    ensures { DistanceIs timing short long result }
{
    require(timing <= 1, Reason::Range, 1)?;
    Ok(if timing == 0 { short } else { long })
}

// Chips from a preamble to its acquisition indicator.
pub fn to_aich(timing: usize) -> Result<usize, Refusal>
    ensures { ToAich timing (distance_of result) }
{
    distance(timing, 7680, 12800)
}

// Chips from a preamble to the message.
pub fn to_message(timing: usize) -> Result<usize, Refusal>
    ensures { ToMessage timing (distance_of result) }
{
    distance(timing, 15360, 20480)
}
