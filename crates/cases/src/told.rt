// How long each run of a mapper is.
use crate::answer;
use crate::question::number;
use run::Refusal;
use std::io;

// The mappers whose runs a format and the run's place in the call tell.
#[derive(Clone, Copy)]
pub(crate) enum Call {
    Slot,
    Frame,
    Dpdch,
    DpdchFrame,
    Dpcch,
    DpcchFrame,
    Hspdsch,
}

fn length(call: Call, line: &[u8]) -> Result<usize, Refusal> {
    let format = number(line, 1);
    let run = number(line, 2);
    match call {
        Call::Slot => lengths::of_slot(format, run),
        Call::Frame => lengths::of_frame(format, run),
        Call::Dpdch => lengths::of_dpdch(format, run),
        Call::DpdchFrame => lengths::of_dpdch_frame(format, run),
        Call::Dpcch => lengths::of_dpcch(format, run),
        Call::DpcchFrame => lengths::of_dpcch_frame(format, run),
        Call::Hspdsch => lengths::of_hspdsch(format, run),
    }
}

pub(crate) fn of(rt: &impl Print, call: Call, line: &[u8]) -> io::Result<()> {
    answer::value(rt, length(call, line), b" length=")
}

pub(crate) fn of_compressed(rt: &impl Print, line: &[u8]) -> io::Result<()> {
    let length = lengths::of_compressed(
        number(line, 1),
        number(line, 2),
        number(line, 3),
        number(line, 4),
        number(line, 5),
    );
    answer::value(rt, length, b" length=")
}
