// Reads a job file on standard input and prints its lines: docs/RULES.md, 'Job file and program'. A window of the file is moved on and filled again as records are run, and
// lines wait in a buffer until there may be no room for another.
#![tactic(auto)]

ghost use Rattle.std.specs.Prelude.{◌≡◌, ◌+◌, ◌-◌, ◌≤◌, ◌<◌, length, take, drop, IfOk, OnErr};
ghost use Rattle.std.specs.Io.{ReadsAtMost};
ghost use Rattle.std.specs.Io.KnownBytes.{Consumes, IsAtEnd};
ghost use Rattle.run.specs.Written.{over};
ghost use Rattle.slotline.specs.Input.{Spends, Within};
ghost use Rattle.slotline.specs.Sound.{Buffer, Sound, Kept, Turned};

use run::Refusal;
use std::io;
use std::io::Read;

// One byte more than a file may have: it is read to see whether it is there, and none behind it.
const MOST: usize = 1048577;

// No record has more bytes.
const RECORD: usize = 1284;

// How far a run is.
#[derive(Clone, Copy)]
struct Stand {
    // bytes of the file before the window
    before: usize,
    // where the next record begins in the window
    at: usize,
    // bytes of the window that are the file's
    filled: usize,
    // bytes that may still be read
    unread: usize,
    // bytes of lines that wait to be written
    waiting: usize,
    // records to be run
    left: usize,
    // whether nothing was refused
    good: bool,
}

// What is left of the window goes to its front; answers how many bytes that are.
fn keep(window: &mut [u8], at: usize, filled: usize) -> usize
    requires { («at» ≤ filled) × (filled ≤ length window.old) }
    ensures { (result ≡ filled - «at») × (window.new ≡ over (take (filled - «at») (drop «at» window.old)) window.old) }
{
    window.copy_within(at..filled, 0);
    filled - at
}

// How many bytes may still be read: none where a read gave fewer than there was room for, since there the file ends.
fn unread_after(unread: usize, room: usize, got: usize) -> usize
    requires { got ≤ unread }
    ensures { result + got ≤ unread }
{
    if got < room { 0 } else { unread - got }
}

// Reads until the buffer is full or the input ends, and answers how many bytes that are.
fn read_full<R: Read>(input: &mut R, buffer: &mut [u8]) -> io::Result<usize>
    ensures bound { ReadsAtMost result buffer.new }
    ensures bytes { IfOk result (λ n. Consumes (R.remaining input.old) (R.remaining input.new) (take n buffer.new)) }
    ensures end { IfOk result (λ n. n < length buffer.old → IsAtEnd (R.remaining input.new)) }
    ensures err { OnErr result (Spends (R.remaining input.old) (R.remaining input.new) (length buffer.old) 0) }
{
    let mut done = 0;
    while done < buffer.len() {
        let n = input.read(&mut buffer[done..])?;
        if n == 0 {
            return Ok(done);
        }
        done += n;
    }
    Ok(done)
}

// The window is moved on to the next record and filled again.
fn fill<R: Read>(input: &mut R, window: &mut [u8], s: Stand) -> io::Result<Stand>
    requires { Sound s × Buffer window.old }
    ensures ok { IfOk result (λ r. Kept s r) }
    ensures limit { Within (R.remaining input.old) (R.remaining input.new) s.unread result }
{
    let kept = keep(window, s.at, s.filled);
    let room = s.unread.min(window.len() - kept);
    let end = kept + room;
    let got = read_full(input, &mut window[kept..end])?;
    let unread = unread_after(s.unread, room, got);
    Ok(Stand {
        before: s.before + s.at,
        at: 0,
        filled: kept + got,
        unread,
        ..s
    })
}

// A window that holds the whole next record, or reaches the file's end or the byte at the limit.
fn ready<R: Read>(input: &mut R, window: &mut [u8], s: Stand) -> io::Result<Stand>
    requires { Sound s × Buffer window.old }
    ensures ok { IfOk result (λ r. Kept s r) }
    ensures limit { Within (R.remaining input.old) (R.remaining input.new) s.unread result }
{
    if s.unread == 0 || s.filled - s.at >= RECORD {
        return Ok(s);
    }
    fill(input, window, s)
}

// Room for a line: those that wait are written where there may be none.
fn room(rt: &impl Print, out: &[u8], s: Stand) -> io::Result<Stand>
    requires { Sound s × Buffer out.now }
    ensures ok { IfOk result (λ r. Kept s r) }
    ensures unread { IfOk result (λ r. r.unread ≡ s.unread) }
{
    let waiting = s.waiting;
    if out.len() - waiting >= lines::LINE {
        return Ok(s);
    }
    rt.write_all(&out[0..waiting])?;
    Ok(Stand { waiting: 0, ..s })
}

// The refusal's line, and the end of the run.
fn refuse(out: &mut [u8], refused: Refusal, s: Stand) -> Stand
    requires { Sound s × Buffer out.old }
    ensures ended { Sound result × (result.left ≡ 0) }
    ensures unread { result.unread ≡ s.unread }
{
    let waiting = s.waiting;
    let told = lines::tell(refused.reason.number(), refused.place, &mut out[waiting..]);
    let length = told.unwrap_or(0);
    Stand {
        waiting: waiting + length,
        left: 0,
        good: false,
        ..s
    }
}

// The line of the next record.
fn step(window: &[u8], limit: u32, out: &mut [u8], s: Stand) -> Stand
    requires { Sound s × Buffer window.now × Buffer out.old × (0 < s.left) }
    ensures turned { Turned s result }
    ensures unread { result.unread ≡ s.unread }
{
    let at = s.at;
    let filled = s.filled;
    let waiting = s.waiting;
    let offset = (s.before + at) as u32;
    match job_run::run(&window[at..filled], offset, limit, &mut out[waiting..]) {
        Ok(ran) => Stand {
            at: at + ran.size,
            waiting: waiting + ran.length,
            left: s.left - 1,
            ..s
        },
        Err(refused) => refuse(out, refused, s),
    }
}

fn turn<R: Read>(
    input: &mut R,
    rt: &impl Print,
    window: &mut [u8],
    limit: u32,
    out: &mut [u8],
    s: Stand,
) -> io::Result<Stand>
    requires { Sound s × Buffer window.old × Buffer out.old × (0 < s.left) }
    ensures ok { IfOk result (λ r. Turned s r) }
    ensures limit { Within (R.remaining input.old) (R.remaining input.new) s.unread result }
{
    let filled = ready(input, window, s)?;
    let free = room(rt, out, filled)?;
    Ok(step(window, limit, out, free))
}

// The lines of the records, up to the first refusal, which leaves none: that is no range to count through.
fn records<R: Read>(
    input: &mut R,
    rt: &impl Print,
    window: &mut [u8],
    limit: u32,
    out: &mut [u8],
    first: Stand,
) -> io::Result<Stand>
    requires { Sound first × Buffer window.old × Buffer out.old }
    ensures ok { IfOk result (λ r. Sound r) }
    ensures limit { Within (R.remaining input.old) (R.remaining input.new) first.unread result }
{
    let mut s = first;
    while s.left > 0 {
        s = turn(input, rt, window, limit, out, s)?;
    }
    Ok(s)
}

// What follows the last record, where none was refused.
fn finish<R: Read>(
    input: &mut R,
    rt: &impl Print,
    window: &mut [u8],
    limit: u32,
    out: &mut [u8],
    s: Stand,
) -> io::Result<Stand>
    requires { Sound s × Buffer window.old × Buffer out.old }
    ensures ok { IfOk result (λ r. Sound r) }
    ensures limit { Within (R.remaining input.old) (R.remaining input.new) s.unread result }
{
    if !s.good {
        return Ok(s);
    }
    let last = ready(input, window, s)?;
    let free = room(rt, out, last)?;
    let at = free.at;
    let filled = free.filled;
    match job_check::end(&window[at..filled], (free.before + at) as u32, limit) {
        Ok(()) => Ok(free),
        Err(refused) => Ok(refuse(out, refused, free)),
    }
}

// The lines of the file whose first bytes are in the window.
fn print<R: Read>(
    input: &mut R,
    rt: &impl Print,
    window: &mut [u8],
    filled: usize,
    out: &mut [u8],
) -> io::Result<Stand>
    requires { Buffer window.old × Buffer out.old × (filled ≤ 65536) }
    ensures ok { IfOk result (λ r. Sound r) }
    ensures limit { Within (R.remaining input.old) (R.remaining input.new) (1048577 - filled) result }
{
    let begun = Stand {
        before: 0,
        at: 0,
        filled,
        unread: unread_after(MOST, window.len(), filled),
        waiting: 0,
        left: 0,
        good: true,
    };
    match job_open::open(&window[0..filled], out) {
        Ok(opened) => {
            let first = Stand {
                at: opened.next,
                waiting: opened.length,
                left: opened.count,
                ..begun
            };
            let last = records(input, rt, window, opened.limit, out, first)?;
            finish(input, rt, window, opened.limit, out, last)
        }
        Err(refused) => Ok(refuse(out, refused, begun)),
    }
}

fn main(rt: HostRuntime) -> io::Result<()> {
    let mut window = [0u8; 65536];
    let mut out = [0u8; 65536];
    let mut input = rt.stdin();
    let filled = read_full(&mut input, &mut window)?;
    let s = print(&mut input, &rt, &mut window, filled, &mut out)?;
    let waiting = s.waiting;
    rt.write_all(&out[0..waiting])
}
