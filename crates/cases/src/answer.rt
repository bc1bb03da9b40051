// An answer: ` -> done` or ` -> refused NUMBER PLACE`, and the runs that were lent, each behind its key.
use crate::question;
use run::Refusal;
use std::io;

pub(crate) fn put(rt: &impl Print, byte: u8) -> io::Result<()> {
    if byte < 10 {
        print!(rt; "{byte}")
    } else {
        rt.write_all(&[byte])
    }
}

// Text in which a digit is what it is.
pub(crate) fn text(rt: &impl Print, text: &[u8]) -> io::Result<()> {
    for byte in text {
        put(rt, *byte)?;
    }
    Ok(())
}

pub(crate) fn number(rt: &impl Print, n: usize) -> io::Result<()> {
    print!(rt; "{n}")
}

pub(crate) fn told(rt: &impl Print, told: Result<(), Refusal>) -> io::Result<()> {
    match told {
        Ok(()) => text(rt, b" -> done"),
        Err(refused) => {
            text(rt, b" -> refused ")?;
            number(rt, refused.reason.number())?;
            put(rt, b' ')?;
            number(rt, refused.place)
        }
    }
}

// .. and what a call tells beside it, with the key before it: 0 where it refuses.
pub(crate) fn value(rt: &impl Print, value: Result<usize, Refusal>, key: &[u8]) -> io::Result<()> {
    told(rt, value.map(|_| ()))?;
    text(rt, key)?;
    number(rt, value.unwrap_or(0))
}

// The key that stands so many keys before the question's last.
pub(crate) fn key(rt: &impl Print, line: &[u8], before: usize) -> io::Result<()> {
    let k = std::num::wrapping_sub_usize(question::last(line, before), 1);
    let words = question::piece(line, b'=', k);
    put(rt, b' ')?;
    text(
        rt,
        question::piece(words, b' ', question::count(words, b' ')),
    )?;
    put(rt, b'=')
}

pub(crate) fn run(rt: &impl Print, line: &[u8], before: usize, run: &[u8]) -> io::Result<()> {
    key(rt, line, before)?;
    text(rt, run)
}

// How large a number is, and 0 for one of more than twelve digits: no case has any.
fn size_of(v: i64) -> u64 {
    if range::between(v, -1000000000000, 1000000000000) {
        v.unsigned_abs()
    } else {
        0
    }
}

// A number, behind a comma where it is not the first.
fn signed(rt: &impl Print, i: usize, v: i64) -> io::Result<()> {
    if 0 < i {
        put(rt, b',')?;
    }
    if v < 0 {
        put(rt, b'-')?;
    }
    let size = size_of(v);
    print!(rt; "{size}")
}

pub(crate) fn values(rt: &impl Print, run: &[i64]) -> io::Result<()> {
    for i in 0..run.len() {
        signed(rt, i, run[i])?;
    }
    Ok(())
}

// A float's bits, and those of one NaN for all.
fn pattern(x: f32) -> u32 {
    if x == x { f32::to_bits(x) } else { 0x7fc00000 }
}

// A float by its bits, so that no rounding and no sign of a zero is lost.
pub(crate) fn float(rt: &impl Print, x: f32) -> io::Result<()> {
    let bits = pattern(x);
    print!(rt; "{bits:08x}")
}
