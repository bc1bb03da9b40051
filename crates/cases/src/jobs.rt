// Job files of one record. What a job prints comes on lines of its own.
ghost use Rattle.std.specs.Prelude.{◌≤◌};

use crate::{answer, long};
use run::Refusal;
use std::io;

fn tell(rt: &impl Print, told: Result<(), Refusal>) -> io::Result<()> {
    if let Err(refused) = told {
        let mut line = [0u8; lines::LINE];
        let n = lines::tell(refused.reason.number(), refused.place, &mut line).unwrap_or(0);
        answer::text(rt, &line[..n])?;
    }
    Ok(())
}

// An offset in a file that is asked on one line.
fn small(offset: usize) -> u32
    ensures { result ≤ 65536 }
{
    if offset < 65536 { offset as u32 } else { 65536 }
}

// What stands behind the record at an offset, of this size.
fn end(rest: &[u8], limit: u32, at: u32, size: usize) -> Result<(), Refusal>
    requires { «at» ≤ 65536 }
{
    let behind = size.min(rest.len());
    job_check::end(&rest[behind..], at + small(behind), limit)
}

// The record at an offset, and what follows it.
fn record(rt: &impl Print, rest: &[u8], limit: u32, at: u32) -> io::Result<()>
    requires { «at» ≤ 65536 }
{
    let mut line = [0u8; lines::LINE];
    match job_run::run(rest, at, limit, &mut line) {
        Ok(ran) => {
            let n = ran.length;
            answer::text(rt, &line[..n])?;
            tell(rt, end(rest, limit, at, ran.size))
        }
        Err(refused) => tell(rt, Err(refused)),
    }
}

// The first record of a file, where it begins.
fn first(rt: &impl Print, file: &[u8], limit: u32, next: usize) -> io::Result<()> {
    let from = next.min(file.len());
    record(rt, &file[from..], limit, small(from))
}

fn print(rt: &impl Print, file: &[u8]) -> io::Result<()> {
    let mut line = [0u8; lines::LINE];
    match job_open::open(file, &mut line) {
        Ok(opened) => {
            let n = opened.length;
            answer::text(rt, &line[..n])?;
            first(rt, file, opened.limit, opened.next)
        }
        Err(refused) => tell(rt, Err(refused)),
    }
}

// A file that is over-long is asked as well, so there is room for one byte more than a file of version 1 may have.
pub(crate) fn lend(rt: &impl Print, text: &[u8]) -> io::Result<()> {
    let mut file = [0; 65536];
    let n = long::unfold(text, &mut file);
    answer::put(rt, b'\n')?;
    print(rt, &file[..n])
}
