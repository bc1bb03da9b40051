// Wake simulation: Np, PI and the three numbers of the tally stand before the frames. A step is asked as a run is.
use crate::answer;
use crate::question::{number, run, word};
use run::Refusal;
use std::io;
use wake::Tally;

fn tell(rt: &impl Print, told: Result<(), Refusal>, tally: Tally) -> io::Result<()> {
    answer::told(rt, told)?;
    answer::text(rt, b" read=")?;
    answer::number(rt, tally.read as usize)?;
    answer::text(rt, b" woke=")?;
    answer::number(rt, tally.woke as usize)?;
    answer::text(rt, b" SFN=")?;
    answer::number(rt, tally.next as usize)
}

fn tally(line: &[u8]) -> Tally {
    Tally {
        read: word(line, 3),
        woke: word(line, 4),
        next: word(line, 5),
    }
}

pub(crate) fn run_frames(rt: &impl Print, line: &[u8]) -> io::Result<()> {
    let mut tally = tally(line);
    let told = wake_run::run(number(line, 1), number(line, 2), run(line, 6), &mut tally);
    tell(rt, told, tally)
}

pub(crate) fn step(rt: &impl Print, line: &[u8]) -> io::Result<()> {
    let mut tally = tally(line);
    let told = wake::frame(number(line, 1), number(line, 2), run(line, 6), &mut tally);
    tell(rt, told, tally)
}
