// A verdict as two numbers, of whatever number and place: docs/RULES.md, 'Numbers a call can return'. The calls of this repository answer a `Refusal`, whose reasons are those of the table; who has
// numbers of his own tells them by these.
ghost use Rattle.std.specs.Prelude.{◌≡◌, ◌+◌, leb, length};
ghost use Rattle.run.specs.Verdicts.{or_else, unless};

// What a call tells: 0 and 0 where it is done, else the refusal's number and place.
#[derive(Clone, Copy)]
pub struct Verdict {
    pub number: usize,
    pub place: usize,
}

// The first of two checks that refuses.
pub fn or_else(v: Verdict, w: Verdict) -> Verdict
    ensures { result ≡ or_else v w }
{
    if v.number == 0 { w } else { v }
}

// Refused with this number and place where the test fails.
pub fn unless(ok: bool, number: usize, place: usize) -> Verdict
    ensures { result ≡ unless ok number place }
{
    if ok {
        Verdict {
            number: 0,
            place: 0,
        }
    } else {
        Verdict { number, place }
    }
}

// Refused at place i of the run, counted from `base`, where i is one of its places.
pub fn found(s: &[u8], i: usize, number: usize, base: u32) -> Verdict
    ensures { result ≡ unless (leb (length s.now) i) number (base + i) }
{
    if s.len() <= i {
        return Verdict {
            number: 0,
            place: 0,
        };
    }
    Verdict {
        number,
        place: base as usize + i,
    }
}
