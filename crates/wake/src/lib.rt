// When a handset wakes, frame by frame of recorded PICH frames: docs/RULES.md, 'Wake simulation'; TS 25.211, 5.3.3.10.
#![tactic(auto)]

ghost use Rattle.std.specs.Prelude.{◌+◌, ◌%◌, ◌<◌, ◌≡◌, true, cond, eqb, get_or, IfOk};
ghost use Rattle.run.specs.Answers.{value_of, verdict_of};
ghost use Rattle.run.specs.Verdicts.{leaves};
ghost use Rattle.pich.specs.Rule.{is_np, indicators_in};
ghost use Rattle.pich.specs.Outcome.{read_verdict};
ghost use Rattle.wake.specs.Outcome.{has_room, frame_head, frame_verdict, frame_tally, Frame};
ghost use Rattle.wake.specs.Exact.{simulated};

use pich::{Indicator, Pi};
use run::{Reason, Refusal, require};

// The running tally of a simulation, as C has it too.
#[repr(C)]
#[derive(Clone, Copy)]
pub struct Tally {
    // Frames read.
    pub read: u32,
    // Frames that woke the handset.
    pub woke: u32,
    // The SFN of the next frame.
    pub next: u32,
}

// Neither count is at its end.
#[tactic(auto, unfolding(crate::specs::Outcome::has_room))]
fn has_room(read: u32, woke: u32) -> bool
    ensures { result ≡ has_room read woke }
{
    read < u32::MAX && woke < u32::MAX
}

fn check_head(frame_length: usize, read: u32, woke: u32) -> Result<(), Refusal>
    ensures { verdict_of result ≡ frame_head read woke frame_length }
{
    require(frame_length == 300, Reason::Length, 0)?;
    require(has_room(read, woke), Reason::Count, 0)
}

// Indicator q of a frame, as the PICH reader hands it back.
fn look(np: usize, q: Indicator, digits: &[u8]) -> Result<u8, Refusal>
    requires { (is_np np ≡ true) × (q.0 < np) }
    ensures { (verdict_of result ≡ read_verdict np digits.now np) × (value_of result ≡ leaves (read_verdict np digits.now np) (get_or (indicators_in np digits.now) q.0 0) 0) }
{
    let mut indicators = [0; 144];
    pich_read::read(np, digits, &mut indicators[..np])?;
    Ok(indicators[q.0])
}

// The tally one frame on: 4095 is followed by 0.
fn moved(read: u32, woke: u32, next: u32, indicator: u8) -> Tally
    requires { (read < 4294967295) × (woke < 4294967295) × (next < 4096) }
    ensures { result ≡ record { read = read + 1; woke = woke + cond (eqb indicator 1) 1 0; next = (next + 1) % 4096 } }
{
    Tally {
        read: read + 1,
        woke: woke + u32::from(indicator == 1),
        next: (next + 1) % 4096,
    }
}

// The tally after one frame, of the three numbers before it: q of its SFN, the indicator there, and the numbers moved on.
fn tally_after(
    np: usize,
    pi: usize,
    digits: &[u8],
    read: u32,
    woke: u32,
    next: u32,
) -> Result<Tally, Refusal>
    ensures { let t : Tally = record { read = read; woke = woke; next = next } in (verdict_of result ≡ frame_verdict np pi t digits.now) × IfOk result (λ u. u ≡ frame_tally np pi t digits.now) }
{
    check_head(digits.len(), read, woke)?;
    let q = pich::q(np, Pi(pi), next as usize)?;
    let indicator = look(np, q, digits)?;
    Ok(moved(read, woke, next, indicator))
}

// One frame: a thin step over the three numbers, which stores the tally after it; where the frame is refused the tally is as it was.
pub fn frame(np: usize, pi: usize, digits: &[u8], tally: &mut Tally) -> Result<(), Refusal>
    ensures { Frame np pi tally.old digits.now (simulated (verdict_of result) tally.new) }
{
    *tally = tally_after(np, pi, digits, tally.read, tally.woke, tally.next)?;
    Ok(())
}
