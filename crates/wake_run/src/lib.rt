// A run over recorded PICH frames (rule, promises and theorems are those of the crate `wake`): docs/RULES.md, 'Wake simulation'; TS 25.211, 5.3.3.10.
#![tactic(auto)]

ghost use Rattle.run.specs.Answers.{verdict_of};
ghost use Rattle.wake.specs.Outcome.{Run};
ghost use Rattle.wake.specs.Exact.{simulated};

use run::{Reason, Refusal, require};
use wake::Tally;

// Frame by frame, up to the first that is refused: the tally is then that of the frames before it. A frame is lent where it lies.
pub fn run(np: usize, pi: usize, frames: &[u8], tally: &mut Tally) -> Result<(), Refusal>
    ensures { Run np pi tally.old frames.now (simulated (verdict_of result) tally.new) }
{
    require(frames.len() % 300 == 0, Reason::Length, 0)?;
    for k in 0..frames.len() / 300 {
        let start = k * 300;
        wake::frame(np, pi, &frames[start..start + 300], tally)?;
    }
    Ok(())
}
