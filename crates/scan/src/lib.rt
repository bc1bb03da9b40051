// Scans of a run for a digit above a limit: the first place of one, or whether there is none.
#![tactic(auto)]

ghost use Rattle.std.specs.List.{position};
ghost use Rattle.std.specs.Prelude.{◌≡◌, ◌&&◌, leb, ltb, length};
ghost use Rattle.run.specs.First.{all, Every, at_most};

// A digit that none of the run is above. A pass that takes no early way out can go many digits at a time.
fn highest(s: &[u8]) -> u8
    ensures { Every (at_most result s.now) (length s.now) }
{
    let mut high = 0;
    for digit in s {
        if high < *digit {
            high = *digit;
        }
    }
    high
}

// The first place whose digit is above `top`.
pub fn above(s: &[u8], top: u8) -> Option<usize>
    ensures { result ≡ position (λ digit. ltb top digit) s.now }
{
    if highest(s) <= top {
        return None;
    }
    s.iter().position(|digit| top < *digit)
}

// Whether the run has n digits and none of its first n is above `top`. Where the caller names n the pass has a constant length.
pub fn all_at_most(s: &[u8], top: u8, n: usize) -> bool
    ensures { result ≡ (leb n (length s.now) && all n (at_most top s.now)) }
{
    if s.len() < n {
        return false;
    }
    let mut good = true;
    for digit in &s[..n] {
        if top < *digit {
            good = false;
        }
    }
    good
}
