// The bank. Its bytes stand in a question as those of a job file do: a byte from 0 to 9 as a digit, any other as its letter. So the slots of these cases have 33 digits, which as a byte is the
// letter !, and the total taken is the letter - with one slot and R with two.
use crate::question::{DIGITS, number, run};
use crate::{answer, question};
use run::Refusal;
use std::io;

// The calls that are lent a run: the bank, and for a fetch the output.
#[derive(Clone, Copy)]
pub(crate) enum Call {
    Empty,
    Store,
    Drop,
    Fetch,
}

fn write(call: Call, line: &[u8], lent: &mut [u8]) -> Result<(), Refusal> {
    match call {
        Call::Empty => bank_store::empty(lent),
        Call::Store => bank_store::store(lent, number(line, 1), run(line, 2)),
        Call::Drop => bank_drop::drop(lent, number(line, 1)),
        Call::Fetch => bank_read::fetch(run(line, 1), number(line, 2), lent),
    }
}

fn tell(rt: &impl Print, call: Call, line: &[u8], lent: &mut [u8]) -> io::Result<()> {
    answer::told(rt, write(call, line, lent))?;
    answer::run(rt, line, 0, lent)
}

pub(crate) fn lend(rt: &impl Print, call: Call, line: &[u8]) -> io::Result<()> {
    let mut lent = [0; DIGITS];
    let n = question::lend(line, 0, &mut lent);
    tell(rt, call, line, &mut lent[..n])
}

pub(crate) fn length(rt: &impl Print, line: &[u8]) -> io::Result<()> {
    let length = bank_read::length_of(run(line, 1), number(line, 2));
    answer::value(rt, length, b" length=")
}

pub(crate) fn room(rt: &impl Print, line: &[u8]) -> io::Result<()> {
    answer::value(rt, bank_read::room(run(line, 1)), b" room=")
}
