// The paging indicator channel, mapped (rule, promises and theorems are those of the crate `pich`): docs/RULES.md, 'PICH'; TS 25.211, 5.3.3.10.
#![tactic(auto)]

ghost use Rattle.std.specs.Prelude.{◌≡◌, true, length};
ghost use Rattle.run.specs.Answers.{verdict_of};
ghost use Rattle.pich.specs.Rule.{is_np, frame_of};
ghost use Rattle.pich.specs.Outcome.{map_verdict, Map};

use pich::{Indicator, first_digit, is_np};
use run::{DTX, Reason, Refusal, refused_at, require};

// The checks in their order.
fn check(np: usize, indicators: &[u8], frame_length: usize) -> Result<(), Refusal>
    ensures { verdict_of result ≡ map_verdict np indicators.now frame_length }
{
    require(is_np(np), Reason::Np, 0)?;
    require(indicators.len() == np, Reason::Length, 0)?;
    require(frame_length == 300, Reason::Length, 1)?;
    refused_at(indicators, scan::above(indicators, 1), Reason::Digit, 0)
}

// Each indicator into its own stretch of the frame, and DTX behind the last.
fn write_frame(np: usize, indicators: &[u8], frame: &mut [u8])
    requires { (is_np np ≡ true) × (length indicators.now ≡ np) × (length frame.old ≡ 300) }
    ensures { frame.new ≡ frame_of np indicators.now }
{
    let width = 288 / np;
    for q in 0..np {
        let start = first_digit(np, Indicator(q));
        let end = start + width;
        frame[start..end].fill(indicators[q]);
    }
    frame[288..300].fill(DTX);
}

// The same, with a loop for each number of indicators: where the width is a number and not a variable, a stretch is one store.
fn write_by_np(np: usize, indicators: &[u8], frame: &mut [u8])
    requires { (is_np np ≡ true) × (length indicators.now ≡ np) × (length frame.old ≡ 300) }
    ensures { frame.new ≡ frame_of np indicators.now }
{
    match np {
        18 => write_frame(18, indicators, frame),
        36 => write_frame(36, indicators, frame),
        72 => write_frame(72, indicators, frame),
        _ => write_frame(144, indicators, frame),
    }
}

// The frame of the indicators, or the refusal and the frame as it was.
pub fn map(np: usize, indicators: &[u8], frame: &mut [u8]) -> Result<(), Refusal>
    ensures { Map np indicators.now frame.old (verdict_of result) frame.new }
{
    check(np, indicators, frame.len())?;
    write_by_np(np, indicators, frame);
    Ok(())
}
