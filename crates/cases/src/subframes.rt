// The calls of the HS-PDSCH.
use crate::question::{number, run};
use crate::{answer, long};
use std::io;

// How many digits a run has at most.
const DIGITS: usize = 1920;

pub(crate) fn map(rt: &impl Print, line: &[u8]) -> io::Result<()> {
    let mut data = [0; DIGITS];
    let n = long::unfold(run(line, 2), &mut data);
    let mut first = [0; DIGITS];
    let m = long::unfold(run(line, 3), &mut first);
    let mut second = [0; DIGITS];
    let l = long::unfold(run(line, 4), &mut second);
    let told = hspdsch_map::map(
        number(line, 1),
        &data[..n],
        &mut first[..m],
        &mut second[..l],
    );
    answer::told(rt, told)?;
    answer::run(rt, line, 1, &first[..m])?;
    answer::run(rt, line, 0, &second[..l])
}

pub(crate) fn read(rt: &impl Print, line: &[u8]) -> io::Result<()> {
    let mut first = [0; DIGITS];
    let n = long::unfold(run(line, 2), &mut first);
    let mut second = [0; DIGITS];
    let m = long::unfold(run(line, 3), &mut second);
    let mut data = [0; DIGITS];
    let l = long::unfold(run(line, 4), &mut data);
    let told = hspdsch_read::read(number(line, 1), &first[..n], &second[..m], &mut data[..l]);
    answer::told(rt, told)?;
    answer::run(rt, line, 0, &data[..l])
}
