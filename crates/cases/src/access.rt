// The random access desk: the desk, what is heard, the available set and n stand before the run that is lent. A distance is asked by its timing.
use crate::question::{VALUES, number, run};
use crate::{answer, question};
use desk::Desk;
use std::io;

// A set of signatures.
fn set(line: &[u8], k: usize) -> u16 {
    (number(line, k) % 65536) as u16
}

// The desk afterwards: as it was where the call refuses.
fn tell(rt: &impl Print, line: &[u8], values: &mut [i32]) -> io::Result<()> {
    let before = Desk {
        last: number(line, 1),
    };
    let served = desk_serve::serve(before, set(line, 2), set(line, 3), number(line, 4), values);
    answer::told(rt, served.map(|_| ()))?;
    answer::text(rt, b" last=")?;
    let after = served.unwrap_or(before);
    answer::number(rt, after.last)?;
    answer::key(rt, line, 0)?;
    let mut shown = [0; VALUES];
    let n = question::widen(values, &mut shown);
    answer::values(rt, &shown[..n])
}

pub(crate) fn serve(rt: &impl Print, line: &[u8]) -> io::Result<()> {
    let mut out = [0; VALUES];
    let m = question::values(run(line, 5), &mut out);
    tell(rt, line, &mut out[..m])
}

pub(crate) fn to_aich(rt: &impl Print, line: &[u8]) -> io::Result<()> {
    answer::value(rt, desk::to_aich(number(line, 1)), b" chips=")
}

pub(crate) fn to_message(rt: &impl Print, line: &[u8]) -> io::Result<()> {
    answer::value(rt, desk::to_message(number(line, 1)), b" chips=")
}
