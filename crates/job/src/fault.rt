// What can be wrong with a job file itself, by name; a mapper's refusals are its own.
ghost use Rattle.std.specs.Prelude.{◌≡◌};
ghost use Rattle.run.specs.Answers.{verdict_of as told};
ghost use Rattle.job.specs.Faults.{check};
ghost use Rattle.job.specs.Answers.{Refuses};

use run::{Reason, Refusal};

// Each fault knows its offset in the file.
#[derive(Clone, Copy)]
pub enum Fault {
    // a byte stands at the limit: the offset is the limit
    OverLong(usize),
    // a byte of the mark 'SLT' is another
    WrongMark(usize),
    // a byte of the version is another
    UnknownVersion(usize),
    // no record has this kind
    UnknownKind(usize),
    // a byte is missing: the offset is the file's length
    EndsEarly(usize),
    // a byte stands behind the last record
    BytesAfter(usize),
}

// The reason and the place that a fault is refused with.
impl From<Fault> for Refusal {
    ghost from_gives = { Refuses };

    #[tactic(auto, unfolding(crate::specs::Faults::verdict_of))]
    fn from(fault: Fault) -> Refusal {
        let (reason, place) = match fault {
            Fault::OverLong(at) => (Reason::OverLong, at),
            Fault::WrongMark(at) => (Reason::Mark, at),
            Fault::UnknownVersion(at) => (Reason::Version, at),
            Fault::UnknownKind(at) => (Reason::Kind, at),
            Fault::EndsEarly(at) => (Reason::EndsEarly, at),
            Fault::BytesAfter(at) => (Reason::BytesAfter, at),
        };
        Refusal { reason, place }
    }
}

// Refused for the fault where the test fails.
#[tactic(auto, unfolding(crate::specs::Faults::check))]
pub fn check(ok: bool, fault: Fault) -> Result<(), Refusal>
    ensures { told result ≡ check ok fault }
{
    if ok { Ok(()) } else { Err(fault.into()) }
}
