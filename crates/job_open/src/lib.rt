// Opens a job file: docs/RULES.md, 'Job file and program'. The definitions, the promises and the theorems are those of `job`.
#![tactic(auto)]

ghost use Rattle.std.specs.Prelude.{◌≡◌};
ghost use Rattle.run.specs.Answers.{verdict_of};
ghost use Rattle.job.specs.Answers.{opened_of};
ghost use Rattle.job.specs.Rule.{is_version, width_of, limit_of, count_in};
ghost use Rattle.job.specs.Outcome.{present, byte_is, length_verdict, head_verdict, open_verdict, Open};

use job::fault::{Fault, check};
use job::{Opened, byte_at};
use lines::LINE;
use run::{Reason, Refusal, require};

#[tactic(auto, unfolding(job::specs::Outcome::present))]
fn present(file: &[u8], at: usize) -> Result<(), Refusal>
    ensures { verdict_of result ≡ present file.now «at» }
{
    check(at < file.len(), Fault::EndsEarly(file.len()))
}

fn byte_is(file: &[u8], at: usize, ok: bool, fault: Fault) -> Result<(), Refusal>
    ensures { verdict_of result ≡ byte_is file.now «at» ok fault }
{
    present(file, at)?;
    check(ok, fault)
}

#[tactic(auto, unfolding(job::specs::Rule::is_version))]
fn is_version(version: u8) -> bool
    ensures { result ≡ is_version version }
{
    version == 1 || version == 2
}

// How many bytes count the records.
fn width_of(version: u8) -> usize
    ensures { result ≡ width_of version }
{
    if version == 1 { 1 } else { 2 }
}

// How many bytes a file may have.
fn limit_of(version: u8) -> u32
    ensures { result ≡ limit_of version }
{
    if version == 1 { 65535 } else { 1048576 }
}

// Version 1 asks for the whole file's length before its records.
fn check_length(version: u8, size: usize) -> Result<(), Refusal>
    ensures { verdict_of result ≡ length_verdict version size }
{
    if version == 1 {
        let limit = limit_of(version) as usize;
        return check(size <= limit, Fault::OverLong(limit));
    }
    Ok(())
}

// The mark, the version with its high byte first, version 1's length, and a count.
fn check_head(file: &[u8]) -> Result<(), Refusal>
    ensures { verdict_of result ≡ head_verdict file.now }
{
    let version = byte_at(file, 4);
    byte_is(file, 0, byte_at(file, 0) == b'S', Fault::WrongMark(0))?;
    byte_is(file, 1, byte_at(file, 1) == b'L', Fault::WrongMark(1))?;
    byte_is(file, 2, byte_at(file, 2) == b'T', Fault::WrongMark(2))?;
    byte_is(file, 3, byte_at(file, 3) == 0, Fault::UnknownVersion(3))?;
    byte_is(file, 4, is_version(version), Fault::UnknownVersion(4))?;
    check_length(version, file.len())?;
    present(file, 4 + width_of(version))
}

fn check_open(file: &[u8], line_length: usize) -> Result<(), Refusal>
    ensures { verdict_of result ≡ open_verdict file.now line_length }
{
    require(LINE <= line_length, Reason::Length, 1)?;
    check_head(file)
}

// The number of records, whose high byte is first where it has two.
fn count_in(file: &[u8], version: u8) -> u16
    ensures { result ≡ count_in (width_of version) file.now }
{
    let first = byte_at(file, 5) as u16;
    if version == 1 {
        return first;
    }
    let second = byte_at(file, 6) as u16;
    first * 256 + second
}

// The header's line and the number of records, or the refusal and the line as it was.
pub fn open(window: &[u8], line: &mut [u8]) -> Result<Opened, Refusal>
    ensures { Open window.now line.old (opened_of result) line.new }
{
    check_open(window, line.len())?;
    let version = byte_at(window, 4);
    let count = count_in(window, version);
    let length = lines::head(version, count, line)?;
    Ok(Opened {
        limit: limit_of(version),
        count: count as usize,
        next: 5 + width_of(version),
        length,
    })
}
