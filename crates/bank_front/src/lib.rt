// The slot at the front of a run of a bank (the layout, the promises and the theorems are those of the crate `bank`): docs/RULES.md, 'Bank'; docs/BANK.md.
#![tactic(auto)]

ghost use Rattle.std.specs.Prelude.{◌≡◌, length};
ghost use Rattle.run.specs.First.{all, at_most};
ghost use Rattle.bank.specs.Outcome.{nonzero, front_size};

use bank::{front_length, is_length};

// Whether all digits are 0, 1 or 2: sixteen at a time, which are one look, and then the rest.
fn are_digits(s: &[u8]) -> bool
    ensures { result ≡ all (length s.now) (at_most 2 s.now) }
{
    let parts = s.chunks_exact(16);
    let rest = parts.remainder();
    for part in parts {
        if !scan::all_at_most(part, 2, 16) {
            return false;
        }
    }
    scan::all_at_most(rest, 2, rest.len())
}

// The bytes that the slot at the front of a run takes, if one stands there.
pub fn front_size(s: &[u8]) -> Option<usize>
    ensures { result ≡ nonzero (front_size s.now) }
{
    let length = front_length(s);
    if !is_length(length) {
        return None;
    }
    let end = 4 + length;
    if s.len() < end || s[1] != 0 {
        return None;
    }
    if are_digits(&s[4..end]) {
        Some(end)
    } else {
        None
    }
}
