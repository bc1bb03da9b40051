// The calls on runs of whole numbers: what is lent stands last in the question, and what is given right before it. A set of available signatures stands first.
use crate::question::{VALUES, last, number, run, signed};
use crate::{answer, question};
use correlator::Complex;
use run::Refusal;
use std::io;

#[derive(Clone, Copy)]
pub(crate) enum Call {
    AichMap,
    AichRead,
    AichMapAvailable,
    AichReadAvailable,
    Sttd,
}

fn write(call: Call, available: u16, given: &[i32], out: &mut [i32]) -> Result<(), Refusal> {
    match call {
        Call::AichMap => aich::map(given, out),
        Call::AichRead => aich::read(given, out),
        Call::AichMapAvailable => aich::map_available(available, given, out),
        Call::AichReadAvailable => aich::read_available(available, given, out),
        Call::Sttd => sttd_values::values(given, out),
    }
}

fn tell(
    rt: &impl Print,
    call: Call,
    line: &[u8],
    given: &[i32],
    out: &mut [i32],
) -> io::Result<()> {
    let available = (number(line, 1) % 65536) as u16;
    answer::told(rt, write(call, available, given, out))?;
    answer::key(rt, line, 0)?;
    let mut shown = [0; VALUES];
    let n = question::widen(out, &mut shown);
    answer::values(rt, &shown[..n])
}

pub(crate) fn lend(rt: &impl Print, call: Call, line: &[u8]) -> io::Result<()> {
    let mut given = [0; VALUES];
    let n = question::values(run(line, last(line, 1)), &mut given);
    let mut out = [0; VALUES];
    let m = question::values(run(line, last(line, 0)), &mut out);
    tell(rt, call, line, &given[..n], &mut out[..m])
}

fn combine(rt: &impl Print, line: &[u8], received: &[i32], results: &mut [i64]) -> io::Result<()> {
    let gains = run(line, 1);
    let h1 = Complex {
        re: signed(gains, 0),
        im: signed(gains, 1),
    };
    let h2 = Complex {
        re: signed(gains, 2),
        im: signed(gains, 3),
    };
    answer::told(rt, combiner::combine(h1, h2, received, results))?;
    answer::key(rt, line, 0)?;
    answer::values(rt, results)
}

// The run that is lent, in 64 bits.
fn lend_wide(rt: &impl Print, line: &[u8], received: &[i32], lent: &[i32]) -> io::Result<()> {
    let mut results = [0; VALUES];
    let n = question::widen(lent, &mut results);
    combine(rt, line, received, &mut results[..n])
}

pub(crate) fn lend_results(rt: &impl Print, line: &[u8]) -> io::Result<()> {
    let mut received = [0; VALUES];
    let n = question::values(run(line, 2), &mut received);
    let mut lent = [0; VALUES];
    let m = question::values(run(line, 3), &mut lent);
    lend_wide(rt, line, &received[..n], &lent[..m])
}
