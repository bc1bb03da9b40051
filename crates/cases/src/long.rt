// Runs that are long, and so are said by what they repeat: `0110*960` is 0110 over and over, 960 digits in all; such parts, and digits as they are, follow each other
// with commas between them.
ghost use Rattle.std.specs.Prelude.{◌≡◌, ◌≤◌, length, take};

use crate::question;
use crate::question::piece;

// The digits over and over, as many as are asked for and there is room for.
fn repeat(digits: &[u8], asked: usize, to: &mut [u8]) -> usize
    ensures { result ≤ length to.new }
{
    let width = digits.len();
    if width == 0 {
        return 0;
    }
    let n = asked.min(to.len());
    for i in 0..n {
        to[i] = digits[i % width];
    }
    n
}

fn part(text: &[u8], to: &mut [u8]) -> usize
    ensures { result ≤ length to.new }
{
    let digits = piece(text, b'*', 0);
    if digits.len() == text.len() {
        return repeat(digits, digits.len(), to);
    }
    repeat(digits, question::read(piece(text, b'*', 1), false), to)
}

// One part after the other.
pub(crate) fn unfold(text: &[u8], to: &mut [u8]) -> usize
    ensures { (result ≤ length to.new) × (result ≡ length (take result to.new)) }
{
    let mut n = 0;
    for k in 0..to.len() {
        n += part(piece(text, b',', k), &mut to[n..]);
    }
    n
}
