// Two runs side by side: the first place at which they differ, and whether they begin alike.
#![tactic(auto)]

ghost use Rattle.std.specs.List.{position, zip};
ghost use Rattle.std.specs.Prelude.{◌≡◌, ◌==◌, not, ◌&&◌, ◌≤◌, leb, length};
ghost use Rattle.run.specs.First.{all, agree};

// Whether the first n digits of two runs are the same. A pass that takes no early way out can go many digits at a time.
fn all_agree(s: &[u8], t: &[u8], n: usize) -> bool
    requires { (n ≤ length s.now) × (n ≤ length t.now) }
    ensures { result ≡ all n (agree s.now t.now) }
{
    let mut good = true;
    for k in 0..n {
        if s[k] != t[k] {
            good = false;
        }
    }
    good
}

// The first place at which two runs differ, as far as the shorter goes.
pub fn difference(s: &[u8], t: &[u8]) -> Option<usize>
    ensures { result ≡ position (λ pair. not (pair.0 == pair.1)) (zip s.now t.now) }
{
    if all_agree(s, t, s.len().min(t.len())) {
        return None;
    }
    s.iter().zip(t.iter()).position(|(a, b)| *a != *b)
}

// Whether two runs have n digits, and their first n are the same.
pub fn same_front(s: &[u8], t: &[u8], n: usize) -> bool
    ensures { result ≡ (leb n (length s.now) && (leb n (length t.now) && all n (agree s.now t.now))) }
{
    if s.len() < n {
        return false;
    }
    if t.len() < n {
        return false;
    }
    all_agree(s, t, n)
}
