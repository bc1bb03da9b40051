// A question: `NAME: CALL key=value key=value`. The value of a key is a run of digits with nothing between them, or whole numbers with commas
// between them. A run that the call is lent stands there as it is before the call, and the question ends with these runs.
//
// A digit in the text is the byte 0 to 9 and not its letter, so that a run of digits is what a call takes, and a job file or a bank whose other bytes
// are letters is its own text.
//
// Nothing is refused here: what is missing is empty, what is no digit counts as 0, a number too long stops growing, a run too long is cut.
ghost use Rattle.std.specs.Prelude.{◌≡◌, ◌<◌, ◌≤◌, length, take};

use crate::{banks, digits, told, values};

// The calls. Those that are asked alike are of one kind, whose module has its calls.
#[derive(Clone, Copy)]
pub(crate) enum Call {
    One(digits::One),
    Two(digits::Two),
    Three(digits::Three),
    PichQ,
    Values(values::Call),
    AichCombine,
    Sample,
    Job,
    HspdschMap,
    HspdschRead,
    DeskServe,
    DeskToAich,
    DeskToMessage,
    WakeRun,
    WakeStep,
    Bank(banks::Call),
    BankLength,
    BankRoom,
    Lengths(told::Call),
    CompressedLengths,
}

// The words that name each.
const CALLS: [(&[u8], Call); 51] = [
    (b" slot map ", Call::One(digits::One::SlotMap)),
    (b" antenna map ", Call::One(digits::One::AntennaMap)),
    (b" frame map ", Call::One(digits::One::FrameMap)),
    (b" P-CCPCH read ", Call::One(digits::One::PccpchRead)),
    (b" PICH map ", Call::One(digits::One::PichMap)),
    (b" PICH read ", Call::One(digits::One::PichRead)),
    (b" DPDCH map ", Call::One(digits::One::DpdchMap)),
    (b" DPDCH read ", Call::One(digits::One::DpdchRead)),
    (b" DPDCH frame map ", Call::One(digits::One::DpdchFrameMap)),
    (
        b" DPDCH frame read ",
        Call::One(digits::One::DpdchFrameRead),
    ),
    (b" DPCCH map ", Call::One(digits::One::DpcchMap)),
    (b" DPCCH frame map ", Call::One(digits::One::DpcchFrameMap)),
    (b" compressed map ", Call::One(digits::One::CompressedMap)),
    (b" STTD digits ", Call::One(digits::One::Sttd)),
    (b" slot read ", Call::Two(digits::Two::SlotRead)),
    (b" antennas read ", Call::Two(digits::Two::AntennasRead)),
    (b" P-CCPCH map ", Call::Two(digits::Two::PccpchMap)),
    (b" DPCCH read ", Call::Two(digits::Two::DpcchRead)),
    (b" frame read ", Call::Three(digits::Three::FrameRead)),
    (
        b" DPCCH frame read ",
        Call::Three(digits::Three::DpcchFrameRead),
    ),
    (
        b" compressed read ",
        Call::Three(digits::Three::CompressedRead),
    ),
    (b" PICH q ", Call::PichQ),
    (b" AICH map ", Call::Values(values::Call::AichMap)),
    (b" AICH read ", Call::Values(values::Call::AichRead)),
    (
        b" AICH available map ",
        Call::Values(values::Call::AichMapAvailable),
    ),
    (
        b" AICH available read ",
        Call::Values(values::Call::AichReadAvailable),
    ),
    (b" STTD values ", Call::Values(values::Call::Sttd)),
    (b" AICH combine ", Call::AichCombine),
    (b" sample ", Call::Sample),
    (b" job ", Call::Job),
    (b" HS-PDSCH map ", Call::HspdschMap),
    (b" HS-PDSCH read ", Call::HspdschRead),
    (b" desk serve ", Call::DeskServe),
    (b" desk to AICH ", Call::DeskToAich),
    (b" desk to message ", Call::DeskToMessage),
    (b" wake run ", Call::WakeRun),
    (b" wake step ", Call::WakeStep),
    (b" bank empty ", Call::Bank(banks::Call::Empty)),
    (b" bank store ", Call::Bank(banks::Call::Store)),
    (b" bank drop ", Call::Bank(banks::Call::Drop)),
    (b" bank fetch ", Call::Bank(banks::Call::Fetch)),
    (b" bank length ", Call::BankLength),
    (b" bank room ", Call::BankRoom),
    (b" slot lengths ", Call::Lengths(told::Call::Slot)),
    (b" frame lengths ", Call::Lengths(told::Call::Frame)),
    (b" DPDCH lengths ", Call::Lengths(told::Call::Dpdch)),
    (
        b" DPDCH frame lengths ",
        Call::Lengths(told::Call::DpdchFrame),
    ),
    (b" DPCCH lengths ", Call::Lengths(told::Call::Dpcch)),
    (
        b" DPCCH frame lengths ",
        Call::Lengths(told::Call::DpcchFrame),
    ),
    (b" HS-PDSCH lengths ", Call::Lengths(told::Call::Hspdsch)),
    (b" compressed lengths ", Call::CompressedLengths),
];

// How many digits and how many whole numbers a run has at most.
pub(crate) const DIGITS: usize = 300;

pub(crate) const VALUES: usize = 32;

// A letter that is a digit as that digit, any other as it is.
pub(crate) fn digit(letter: u8) -> u8 {
    match letter {
        b'0'..=b'9' => letter - b'0',
        _ => letter,
    }
}

// How many marks there are.
pub(crate) fn count(text: &[u8], mark: u8) -> usize {
    text.iter().filter(|byte| **byte == mark).count()
}

// What stands behind the k-th mark.
fn behind(text: &[u8], mark: u8, k: usize) -> &[u8] {
    let mut left = k;
    for i in 0..text.len() {
        if left == 0 {
            return &text[i..];
        }
        if text[i] == mark {
            left -= 1;
        }
    }
    &[]
}

// What stands between the k-th mark and the next.
pub(crate) fn piece(text: &[u8], mark: u8, k: usize) -> &[u8] {
    let rest = behind(text, mark, k);
    let n = scan_equal::equal(rest, mark).unwrap_or(rest.len());
    &rest[..n]
}

// Which call the question names.
pub(crate) fn named(line: &[u8]) -> Option<Call> {
    let words = behind(line, b':', 1);
    for (name, call) in CALLS {
        if words.starts_with(name) {
            return Some(call);
        }
    }
    None
}

// The value of the k-th key.
pub(crate) fn run(line: &[u8], k: usize) -> &[u8] {
    piece(piece(line, b'=', k), b' ', 0)
}

// The figure of a number of base 10 or 16.
fn figure(byte: u8) -> usize
    ensures { result < 16 }
{
    match byte {
        0..=9 => byte as usize,
        b'a'..=b'f' => (byte - 87) as usize,
        _ => 0,
    }
}

// A number with one more figure. One from 2 to the 27 on stays as it is, so that none comes to 2 to the 31.
fn grown(n: usize, byte: u8, hex: bool) -> usize
    requires { n < 2147483648 }
    ensures { result < 2147483648 }
{
    if 134217728 <= n {
        return n;
    }
    if hex {
        return n * 16 + figure(byte);
    }
    n * 10 + figure(byte)
}

pub(crate) fn read(text: &[u8], hex: bool) -> usize
    ensures { result < 2147483648 }
{
    let mut n = 0;
    for byte in text {
        n = grown(n, *byte, hex);
    }
    n
}

pub(crate) fn number(line: &[u8], k: usize) -> usize {
    read(run(line, k), false)
}

// A number of 32 bits: what is above them is cut off.
fn cut(text: &[u8]) -> u32 {
    let mut n = 0u32;
    for byte in text {
        let wide = n as usize * 10 + figure(*byte);
        n = (wide % 4294967296) as u32;
    }
    n
}

pub(crate) fn word(line: &[u8], k: usize) -> u32 {
    cut(run(line, k))
}

// The k-th whole number of a run.
fn value(run: &[u8], k: usize) -> i32 {
    let text = piece(run, b',', k);
    let size = read(text, false) as i32;
    if text.contains(&b'-') { 0 - size } else { size }
}

pub(crate) fn signed(run: &[u8], k: usize) -> i64 {
    i64::from(value(run, k))
}

// The number of the run that stands so many runs before the question's last.
pub(crate) fn last(line: &[u8], before: usize) -> usize {
    std::num::wrapping_sub_usize(count(line, b'='), before)
}

// Copies the run that stands so many runs before the question's last.
pub(crate) fn lend(line: &[u8], before: usize, to: &mut [u8]) -> usize
    ensures { (result ≤ length to.new) × (result ≡ length (take result to.new)) }
{
    let run = run(line, last(line, before));
    write::copy(to, run);
    run.len().min(to.len())
}

pub(crate) fn values(run: &[u8], to: &mut [i32]) -> usize
    ensures { (result ≤ length to.new) × (result ≡ length (take result to.new)) }
{
    for i in 0..to.len() {
        if behind(run, b',', i).is_empty() {
            return i;
        }
        to[i] = value(run, i);
    }
    to.len()
}

// The same numbers in 64 bits, as many as there is room for.
pub(crate) fn widen(run: &[i32], to: &mut [i64]) -> usize
    ensures { (result ≤ length to.new) × (result ≡ length (take result to.new)) }
{
    let n = run.len().min(to.len());
    for i in 0..n {
        to[i] = i64::from(run[i]);
    }
    n
}
