// Why a call refuses, and where: docs/RULES.md, 'Numbers a call can return'. The same list of numbers is specs/Refusals.antt.

ghost use Rattle.std.specs.Prelude.{◌≡◌};
ghost use Rattle.run.specs.Answers.{number_of};

// Each reason has the number of its row in that table.
#[derive(Clone, Copy, PartialEq, Eq)]
pub enum Reason {
    // format that the table of the channel lacks
    Format = 1,
    // slot number above 14
    Slot = 2,
    // a lent run has the wrong length; the place says which run
    Length = 3,
    // digit not allowed
    Digit = 4,
    // TPC command not 0 or 1; in reading, TPC digits DTX or unlike
    Tpc = 5,
    // TFCI digits mixed, some bits and some DTX; on the downlink alone
    Tfci = 6,
    // pilot differs from the table
    Pilot = 7,
    // Np not 18, 36, 72, 144
    Np = 8,
    // PICH or P-CCPCH frame, second stream of a DPCH slot or HS-PDSCH subframe, or missing slot of a compressed frame, that no fields give
    Frame = 9,
    // AICH values that no indicators give
    Values = 10,
    // a number outside its range
    Range = 11,
    // both gains zero
    Gains = 12,
    // over-long job file
    OverLong = 20,
    // wrong mark of a job file
    Mark = 21,
    // version of a job file not known
    Version = 22,
    // kind of a record not known
    Kind = 23,
    // job file ends early, in its header or in a record
    EndsEarly = 24,
    // bytes after the last record of a job file
    BytesAfter = 25,
    // a nonzero indicator of a signature that is not available
    Signature = 26,
    // a gap that leaves too few or too many slots of a compressed frame, or runs past slot 14
    Gap = 27,
    // buffer of a bank under 8 or over 65536 bytes, or bytes that are no bank
    Bank = 28,
    // no slot with the number in the bank
    Absent = 29,
    // a slot with the number is already in the bank
    Present = 30,
    // no room in the bank
    Room = 31,
    // a count of frames that stands at 4294967295
    Count = 32,
}

impl Reason {
    // The number that C is told.
    pub fn number(self) -> usize
        ensures { result ≡ number_of self }
    {
        self as usize
    }
}

// A refusal: its reason, and the place that the reason's row of the table speaks of.
#[derive(Clone, Copy)]
pub struct Refusal {
    pub reason: Reason,
    pub place: usize,
}
