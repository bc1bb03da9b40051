// Scans of a run for one digit: each answers the first place that it looks for.
#![tactic(auto)]

ghost use Rattle.std.specs.List.{position};
ghost use Rattle.std.specs.Prelude.{◌≡◌, ◌==◌, not, get_or};
ghost use Rattle.run.specs.First.{is_unlike};

use run::DTX;

// The first place whose digit is not `v`.
pub fn other(s: &[u8], v: u8) -> Option<usize>
    ensures { result ≡ position (λ digit. not (digit == v)) s.now }
{
    s.iter().position(|digit| *digit != v)
}

// The first place whose digit is `v`.
pub fn equal(s: &[u8], v: u8) -> Option<usize>
    ensures { result ≡ position (λ digit. digit == v) s.now }
{
    s.iter().position(|digit| *digit == v)
}

// The first place whose digit is DTX or differs from the run's first.
pub fn unlike(s: &[u8]) -> Option<usize>
    ensures { result ≡ position (is_unlike (get_or s.now 0 0)) s.now }
{
    let v = *s.first()?;
    if v == DTX {
        return Some(0);
    }
    other(s, v)
}
