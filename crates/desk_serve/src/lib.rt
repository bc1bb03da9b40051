// The random access desk, one access slot (rule, promises and theorems are those of the crate `desk`): docs/RULES.md, 'The random access desk'; TS 25.211, 5.3.3.7 and 7.3.
#![tactic(auto)]

ghost use Rattle.std.specs.Prelude.{◌<◌, ◌≤◌, ◌≡◌, ◌&&◌, leb};
ghost use Rattle.run.specs.Answers.{verdict_of};
ghost use Rattle.aich.specs.Rule.{offers};
ghost use Rattle.desk.specs.Answers.{served_of};
ghost use Rattle.desk.specs.Rule.{last_after};
ghost use Rattle.desk.specs.Outcome.{serve_verdict, Serve};
ghost use Rattle.desk.specs.Method.{Turned, mark_of, marks_of};

use desk::Desk;
use run::{Reason, Refusal, require};

// How many may be served in a slot.
fn is_number(n: usize) -> bool
    ensures { result ≡ (leb 1 n && leb n 16) }
{
    1 <= n && n <= 16
}

// The checks in their order.
fn check(last: usize, n: usize, values_length: usize) -> Result<(), Refusal>
    ensures { verdict_of result ≡ serve_verdict last n values_length }
{
    require(values_length == 32, Reason::Length, 0)?;
    require(is_number(n), Reason::Range, 0)?;
    require(last <= 15, Reason::Range, 2)
}

// The candidates in circular order: bit p is the one at place p.
fn turned(candidates: u16, last: usize) -> u32
    requires { last ≤ 15 }
    ensures { Turned (offers candidates) last result }
{
    let twice = 65536 * candidates as usize + candidates as usize;
    ((twice >> (last + 1)) % 65536) as u32
}

// The last of the candidates that is served: from one to the next in circular order, n of them or as many as there are.
fn last_served(candidates: u16, last: usize, n: usize) -> usize
    requires { last ≤ 15 }
    ensures { result ≡ last_after (offers candidates) last n }
{
    let mut rest = turned(candidates, last);
    let mut place = 0;
    for met in 0..n {
        if rest == 0 {
            return (last + place) % 16;
        }
        place = u32::trailing_zeros(rest) as usize + 1;
        rest = rest & (rest - 1);
    }
    (last + place) % 16
}

// The indicator of signature s where candidates are served up to place q.
fn mark(candidates: u32, last: u32, q: u32, s: u32) -> i32
    requires { (last ≤ 15) × (s < 16) }
    ensures { result ≡ mark_of (offers candidates) last q s }
{
    if (candidates >> s) % 2 == 0 {
        return 0;
    }
    if (s + 15 - last) % 16 <= q {
        return 1;
    }
    -1
}

// All sixteen. Numbers of 32 bits, so that the compiler goes four signatures at a time.
fn marks(candidates: u32, last: u32, q: u32) -> [i32; 16]
    requires { last ≤ 15 }
    ensures { result ≡ marks_of (offers candidates) last q }
{
    let mut indicators = [0i32; 16];
    for s in 0..16u32 {
        indicators[s as usize] = mark(candidates, last, q, s);
    }
    indicators
}

// One access slot: the values of the indicators and the desk afterwards, or the refusal, and both as they were.
pub fn serve(
    desk: Desk,
    heard: u16,
    available: u16,
    n: usize,
    values: &mut [i32],
) -> Result<Desk, Refusal>
    ensures { Serve desk heard available n values.old (served_of desk result) values.new }
{
    let last = desk.last;
    check(last, n, values.len())?;
    let candidates = heard & available;
    let after = last_served(candidates, last, n);
    let q = (after + 15 - last) % 16;
    let indicators = marks(candidates as u32, last as u32, q as u32);
    aich::map(&indicators, values)?;
    Ok(Desk { last: after })
}
