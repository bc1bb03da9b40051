// Runs a record of a job file: docs/RULES.md, 'Job file and program'. The definitions, the promises and the theorems are those of `job`.
#![tactic(auto)]

ghost use Rattle.std.specs.Prelude.{◌≡◌};
ghost use Rattle.run.specs.Answers.{verdict_of};
ghost use Rattle.run.specs.Verdicts.{or_else};
ghost use Rattle.lines.specs.Outcome.{room};
ghost use Rattle.job.specs.Answers.{ran_of};
ghost use Rattle.job.specs.Outcome.{record_head, Run};

use job::{Ran, byte_at};
use kinds::shape_of;
use lines::LINE;
use run::{Reason, Refusal, require};

// A line with room, and a record whose bytes are all there.
fn check_head(window: &[u8], offset: u32, limit: u32, line_length: usize) -> Result<(), Refusal>
    ensures { verdict_of result ≡ or_else (room 1 line_length) (record_head limit offset window.now) }
{
    require(LINE <= line_length, Reason::Length, 1)?;
    job_check::record_head(window, offset, limit)
}

// The line of the record at the front of a window that begins at `offset` of the file, or the refusal and the line as it was.
pub fn run(window: &[u8], offset: u32, limit: u32, line: &mut [u8]) -> Result<Ran, Refusal>
    ensures { Run limit offset window.now line.old (ran_of result) line.new }
{
    check_head(window, offset, limit, line.len())?;
    let shape = shape_of(byte_at(window, 0), byte_at(window, 1));
    let size = shape.size;
    let length = lines::record(&window[0..size], line)?;
    Ok(Ran { size, length })
}
