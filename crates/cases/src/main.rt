// Answers questions on the proved calls, one line for each: the question as it stands, and what the call answers and leaves in each lent run.
// The questions are the cases of docs/RULES.md, 'Marked examples', and others. The independent second program wrote them to the file stdin beside src/, and the same questions
// with the answers of its own rules to the file stdout.
//
// The names say where a case is from: P1 to P12 are the marked examples, `other` the other examples, `refusal N` a row of the table of
// numbers, `slip` a slip that has been seen, `done` any other call that is done.
#![tactic(auto)]

ghost use Rattle.std.specs.Prelude.{ℕ, ◌<◌, ◌≤◌, List, length, take, IfOk, OnErr};
ghost use Rattle.std.specs.Io.{ReadsAtMost};
ghost use Rattle.std.specs.Io.KnownBytes.{Consumes, IsAtEnd};

mod access;
mod answer;
mod banks;
mod digits;
mod jobs;
mod long;
mod question;
mod samples;
mod subframes;
mod told;
mod uplink;
mod values;
mod wakes;

use question::Call;
use std::io;
use std::io::Read;

fn ask(rt: &impl Print, call: Call, line: &[u8]) -> io::Result<()> {
    match call {
        Call::One(call) => digits::lend_one(rt, call, line),
        Call::Two(call) => digits::lend_two(rt, call, line),
        Call::Three(call) => digits::lend_three(rt, call, line),
        Call::PichQ => digits::q(rt, line),
        Call::Values(call) => values::lend(rt, call, line),
        Call::AichCombine => values::lend_results(rt, line),
        Call::Sample => samples::take(rt, line),
        Call::Job => jobs::lend(rt, question::run(line, 1)),
        Call::HspdschMap => subframes::map(rt, line),
        Call::HspdschRead => subframes::read(rt, line),
        Call::DeskServe => access::serve(rt, line),
        Call::DeskToAich => access::to_aich(rt, line),
        Call::DeskToMessage => access::to_message(rt, line),
        Call::WakeRun => wakes::run_frames(rt, line),
        Call::WakeStep => wakes::step(rt, line),
        Call::Bank(call) => banks::lend(rt, call, line),
        Call::BankLength => banks::length(rt, line),
        Call::BankRoom => banks::room(rt, line),
        Call::Lengths(call) => told::of(rt, call, line),
        Call::CompressedLengths => told::of_compressed(rt, line),
    }
}

// The line of a question is ended by its answer, but what a job prints comes on lines of its own.
fn answered(rt: &impl Print, line: &[u8]) -> io::Result<()> {
    answer::text(rt, line)?;
    let call = question::named(line);
    match call {
        Some(call) => ask(rt, call, line)?,
        None => answer::text(rt, b" -> no such call")?,
    }
    if matches!(call, Some(Call::Job)) {
        return Ok(());
    }
    answer::put(rt, b'\n')
}

fn questions(rt: &impl Print, text: &[u8]) -> io::Result<()> {
    for k in 0..question::count(text, b'\n') {
        answered(rt, question::piece(text, b'\n', k))?;
    }
    Ok(())
}

// Answers each line of a text, once the letters of its digits are the digits themselves.
fn decode(rt: &impl Print, text: &mut [u8]) -> io::Result<()> {
    for i in 0..text.len() {
        text[i] = question::digit(text[i]);
    }
    questions(rt, text)
}

// Reads until the buffer is full or the input ends, and answers how many bytes that are.
fn read_full<R: Read>(input: &mut R, buffer: &mut [u8]) -> io::Result<usize>
    ensures bound { ReadsAtMost result buffer.new }
    ensures bytes { IfOk result (λ n. Consumes (R.remaining input.old) (R.remaining input.new) (take n buffer.new)) }
    ensures end { IfOk result (λ n. n < length buffer.old → IsAtEnd (R.remaining input.new)) }
    ensures err { OnErr result ((bytes : List ℕ) × Consumes (R.remaining input.old) (R.remaining input.new) bytes × (length bytes ≤ length buffer.old)) }
{
    let mut done = 0;
    while done < buffer.len() {
        let n = input.read(&mut buffer[done..])?;
        if n == 0 {
            return Ok(done);
        }
        done += n;
    }
    Ok(done)
}

fn main(rt: HostRuntime) -> io::Result<()> {
    let mut buffer = [0u8; 65536];
    let n = read_full(&mut rt.stdin(), &mut buffer)?;
    decode(&rt, &mut buffer[..n])
}
