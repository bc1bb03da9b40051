// Whether the TFCI field of a slot of the downlink DPCH is all bits or all DTX (rule, promises and theorems are those of the crate `slot`): docs/RULES.md, 'DPCH slot'; TS 25.211, 5.3.2.
#![tactic(auto)]

ghost use Rattle.std.specs.Prelude.{◌≡◌, ◌≤◌, length};
ghost use Rattle.run.specs.First.{all};
ghost use Rattle.slot.specs.Rule.{tfci_stands};
ghost use Rattle.slot_tfci.specs.Method.{kind_at};

use run::DTX;

// Whether the first n digits are all DTX, or none of them, as asked. Here n is a number where the function is called, so that a field is one comparison; a loop with an early way out (`all`) would not be.
fn all_of_kind(s: &[u8], silent: bool, n: usize) -> bool
    requires { n ≤ length s.now }
    ensures { result ≡ all n (kind_at silent s.now) }
{
    let mut good = true;
    for k in 0..n {
        if (s[k] == DTX) != silent {
            good = false;
        }
    }
    good
}

// Whether the digits of a TFCI field are of one kind, DTX or not.
pub fn is_tfci(s: &[u8]) -> bool
    ensures { result ≡ all (length s.now) (tfci_stands s.now) }
{
    let n = s.len();
    if n == 0 {
        return true;
    }
    let silent = s[0] == DTX;
    match n {
        2 => all_of_kind(s, silent, 2),
        4 => all_of_kind(s, silent, 4),
        8 => all_of_kind(s, silent, 8),
        16 => all_of_kind(s, silent, 16),
        _ => all_of_kind(s, silent, n),
    }
}
