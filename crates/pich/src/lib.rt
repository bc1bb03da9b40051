// The paging indicator channel, its numbers of indicators and q: docs/RULES.md, 'PICH'; TS 25.211, 5.3.3.10.
#![tactic(auto)]

ghost use Rattle.std.specs.Prelude.{◌≡◌, true, ◌*◌, ◌/◌, ◌<◌, ◌≤◌};
ghost use Rattle.run.specs.Answers.{verdict_of};
ghost use Rattle.pich.specs.Paging.{paging_of};
ghost use Rattle.pich.specs.Rule.{is_np, first_digit, q_of};
ghost use Rattle.pich.specs.Outcome.{q_verdict, Q};

use run::{Reason, Refusal, require};

// A PI as the higher layers compute it. It does not say where in the frame its indicator stands.
#[derive(Clone, Copy)]
pub struct Pi(pub usize);

// The number q of a paging indicator: what a place in the frame is found by.
#[derive(Clone, Copy)]
pub struct Indicator(pub usize);

// Np is one of the numbers of indicators that a frame can have.
pub fn is_np(np: usize) -> bool
    ensures { result ≡ is_np np }
{
    matches!(np, 18 | 36 | 72 | 144)
}

// Where the digits of indicator q begin, and the tail where the frame has no such indicator.
pub fn first_digit(np: usize, q: Indicator) -> usize
    ensures { result ≡ first_digit np q.0 }
{
    if q.0 < np {
        return 288 / np * q.0;
    }
    288
}

// The checks in their order.
fn check(np: usize, pi: Pi, sfn: usize) -> Result<(), Refusal>
    ensures { verdict_of result ≡ q_verdict np pi sfn }
{
    require(is_np(np), Reason::Np, 0)?;
    require(pi.0 < np, Reason::Range, 0)?;
    require(sfn < 4096, Reason::Range, 1)
}

// x of 144 parts, counted in Np parts: the product comes before the floor.
fn parts(x: usize, np: usize) -> usize
    requires { (x ≤ 144) × (np ≤ 144) }
    ensures { result ≡ (x * np) / 144 }
{
    x * np / 144
}

fn q_of(np: usize, pi: usize, sfn: usize) -> usize
    requires { (is_np np ≡ true) × (pi < np) × (sfn < 4096) }
    ensures { result ≡ q_of np pi sfn }
{
    let x = 18 * (sfn + sfn / 8 + sfn / 64 + sfn / 512) % 144;
    (pi + parts(x, np)) % np
}

// The paging indicator of a higher-layer PI in the frame of an SFN.
pub fn q(np: usize, pi: Pi, sfn: usize) -> Result<Indicator, Refusal>
    ensures { Q np pi sfn (paging_of result) }
{
    check(np, pi, sfn)?;
    Ok(Indicator(q_of(np, pi.0, sfn)))
}
