// Text put into a lent line, one piece behind the other.
ghost use Rattle.std.specs.Prelude.{◌≡◌, true, ◌+◌, ◌*◌, ◌≤◌, ◌<◌, [], ◌∷◌, pos, negsuc, length};
ghost use Rattle.run.specs.First.{Every};
ghost use Rattle.run.specs.Ranges.{between, in_range};
ghost use Rattle.lines.specs.Text.{decimal, number, signed, spaced, glyph, glyphs, row, Wrote};

use write::copy;

fn glyph(digit: u8) -> u8
    ensures { result ≡ glyph digit }
{
    if digit < 2 { 48 + digit } else { b'-' }
}

// Each digit's own sign into a run of the same length.
fn spell(digits: &[u8], out: &mut [u8])
    requires { length digits.now ≡ length out.old }
    ensures { out.new ≡ glyphs digits.now }
{
    for i in 0..digits.len() {
        out[i] = glyph(digits[i]);
    }
}

// A line, and where its text ends. Each method also promises that it holds the same lent line still, so that who lent it learns what was put there.
#[derive(Drop)]
pub(crate) struct Text<'a> {
    pub(crate) line: &'a mut [u8],
    pub(crate) end: usize,
}

impl<'a> Text<'a> {
    // The bytes of a word.
    pub(crate) fn word(&mut self, bytes: &[u8])
        requires { self.old.end + length bytes.now ≤ length self.old.line.now }
        ensures wrote { Wrote self.old.end bytes.now self.old.line.now self.new.end self.new.line.now }
        ensures lent { self.new.line.ghost_name ≡ self.old.line.ghost_name }
    {
        let end = self.end + bytes.len();
        copy(&mut self.line[self.end..end], bytes);
        self.end = end;
    }

    // One byte.
    pub(crate) fn byte(&mut self, b: u8)
        requires { self.old.end < length self.old.line.now }
        ensures wrote { Wrote self.old.end (b ∷ []) self.old.line.now self.new.end self.new.line.now }
        ensures lent { self.new.line.ghost_name ≡ self.old.line.ghost_name }
    {
        self.line[self.end] = b;
        self.end += 1;
    }

    // A number in decimal: what stands before its last digit, and then that digit.
    fn decimal(&mut self, n: usize)
        requires { self.old.end + length (decimal n) ≤ length self.old.line.now }
        ensures wrote { Wrote self.old.end (decimal n) self.old.line.now self.new.end self.new.line.now }
        ensures lent { self.new.line.ghost_name ≡ self.old.line.ghost_name }
    {
        let last = 48 + (n % 10) as u8;
        if n >= 10 {
            self.decimal(n / 10);
        }
        self.byte(last);
    }

    // A number in decimal, and a byte behind it.
    pub(crate) fn number(&mut self, n: usize, behind: u8)
        requires { self.old.end + length (number n behind) ≤ length self.old.line.now }
        ensures wrote { Wrote self.old.end (number n behind) self.old.line.now self.new.end self.new.line.now }
        ensures lent { self.new.line.ghost_name ≡ self.old.line.ghost_name }
    {
        self.decimal(n);
        self.byte(behind);
    }

    fn digits(&mut self, digits: &[u8])
        requires { self.old.end + length digits.now ≤ length self.old.line.now }
        ensures wrote { Wrote self.old.end (glyphs digits.now) self.old.line.now self.new.end self.new.line.now }
        ensures lent { self.new.line.ghost_name ≡ self.old.line.ghost_name }
    {
        let end = self.end + digits.len();
        spell(digits, &mut self.line[self.end..end]);
        self.end = end;
    }

    // The digits of a slot or a frame, and the end of the line.
    pub(crate) fn row(&mut self, s: &[u8])
        requires { self.old.end + length s.now < length self.old.line.now }
        ensures wrote { Wrote self.old.end (row s.now) self.old.line.now self.new.end self.new.line.now }
        ensures lent { self.new.line.ghost_name ≡ self.old.line.ghost_name }
    {
        self.digits(s);
        self.byte(b'\n');
    }

    // A value of the AICH in decimal.
    fn signed(&mut self, v: i32)
        requires { (between (negsuc 15) (pos 16) v ≡ true) × (self.old.end + 3 ≤ length self.old.line.now) }
        ensures wrote { Wrote self.old.end (signed v) self.old.line.now self.new.end self.new.line.now }
        ensures lent { self.new.line.ghost_name ≡ self.old.line.ghost_name }
    {
        if v < 0 {
            self.byte(b'-');
        }
        self.decimal(v.unsigned_abs() as usize);
    }

    // Values, each with a space before it.
    pub(crate) fn values(&mut self, values: &[i32])
        requires { Every (in_range (negsuc 15) (pos 16) values.now) (length values.now) × (self.old.end + 4 * length values.now ≤ length self.old.line.now) }
        ensures wrote { Wrote self.old.end (spaced values.now) self.old.line.now self.new.end self.new.line.now }
        ensures lent { self.new.line.ghost_name ≡ self.old.line.ghost_name }
    {
        for v in values {
            self.byte(b' ');
            self.signed(*v);
        }
    }
}
