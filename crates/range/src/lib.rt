// Ranges of whole numbers: a number's, and the first place of a run that is outside.
#![tactic(auto)]

ghost use Rattle.std.specs.List.{position};
ghost use Rattle.std.specs.Prelude.{◌≡◌, not, length};
ghost use Rattle.run.specs.First.{all};
ghost use Rattle.run.specs.Ranges.{between, in_range};

// x lies in `low` to `high`.
pub fn between(x: i64, low: i64, high: i64) -> bool
    ensures { result ≡ between low high x }
{
    low <= x && x <= high
}

// The same of a number of 32 bits, with no jump between the two tests.
fn lies(x: i32, low: i32, high: i32) -> bool
    ensures { result ≡ between low high x }
{
    (low <= x) & (x <= high)
}

// Whether every number does. A pass that takes no early way out can go many numbers at a time.
fn all_lie(s: &[i32], low: i32, high: i32) -> bool
    ensures { result ≡ all (length s.now) (in_range low high s.now) }
{
    let mut good = true;
    for x in s {
        if !lies(*x, low, high) {
            good = false;
        }
    }
    good
}

// The first place whose number is outside `low` to `high`.
pub fn outside(s: &[i32], low: i32, high: i32) -> Option<usize>
    ensures { result ≡ position (λ x. not (between low high x)) s.now }
{
    if all_lie(s, low, high) {
        return None;
    }
    s.iter().position(|x| !lies(*x, low, high))
}
