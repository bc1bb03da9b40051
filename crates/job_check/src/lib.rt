// The checks of a job file's own bytes behind its header: docs/RULES.md, 'Job file and program'. The definitions, the promises and the theorems are those of `job`.
#![tactic(auto)]

ghost use Rattle.std.specs.Prelude.{◌≡◌, get_or};
ghost use Rattle.run.specs.Answers.{verdict_of};
ghost use Rattle.kinds.specs.Rule.{shape_of};
ghost use Rattle.kinds.specs.Kinds.{told};
ghost use Rattle.job.specs.Outcome.{within, reach, kind_head, record_head, end_verdict};

use job::byte_at;
use job::fault::{Fault, check};
use kinds::{Shape, shape_of};
use run::Refusal;

// Refused where the byte at the limit is among those up to `end` that are looked for, and is there.
#[tactic(auto, unfolding(job::specs::Outcome::within))]
fn within(limit: usize, size: usize, end: usize) -> Result<(), Refusal>
    ensures { verdict_of result ≡ within limit size end }
{
    check(end.min(size) <= limit, Fault::OverLong(limit))
}

// Refused where reading in turn does not come to `end` in a file of `size` bytes.
fn reach(limit: usize, size: usize, end: usize) -> Result<(), Refusal>
    ensures { verdict_of result ≡ reach limit size end }
{
    within(limit, size, end)?;
    check(end <= size, Fault::EndsEarly(size))
}

// What the first two bytes of a window say of the record that begins there.
fn shape_in(window: &[u8]) -> Shape
    ensures { told result ≡ shape_of (get_or window.now 0 0) (get_or window.now 1 0) }
{
    shape_of(byte_at(window, 0), byte_at(window, 1))
}

// The checks of a record's head, from its kind on.
fn kind_head(window: &[u8], offset: u32, limit: u32) -> Result<(), Refusal>
    ensures { verdict_of result ≡ kind_head limit offset window.now }
{
    let from = offset as usize;
    let size = from + window.len();
    let shape = shape_in(window);
    check(shape.known, Fault::UnknownKind(from))?;
    reach(limit as usize, size, from + 2)?;
    shape.second?;
    reach(limit as usize, size, from + shape.size)
}

// Refused where the record at the front of a window is not one whose bytes are all there.
pub fn record_head(window: &[u8], offset: u32, limit: u32) -> Result<(), Refusal>
    ensures { verdict_of result ≡ record_head limit offset window.now }
{
    let from = offset as usize;
    reach(limit as usize, from + window.len(), from + 1)?;
    kind_head(window, offset, limit)
}

// Refused where a byte stands behind the last record, at the front of a window.
pub fn end(window: &[u8], offset: u32, limit: u32) -> Result<(), Refusal>
    ensures { verdict_of result ≡ end_verdict limit offset window.now }
{
    let from = offset as usize;
    let size = from + window.len();
    within(limit as usize, size, from + 1)?;
    check(size <= from, Fault::BytesAfter(from))
}
