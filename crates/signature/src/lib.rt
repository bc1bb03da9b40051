// The signatures of the acquisition indicator channel: docs/RULES.md, 'AICH'; TS 25.211, 5.3.3.7.
#![tactic(auto)]

ghost use Rattle.std.specs.Prelude.{◌≡◌, ◌<◌};
ghost use Rattle.signature.specs.Rule.{is_plus};
ghost use Rattle.signature.specs.Outcome.{sign_at};

// Table 20 of the early draft: row s is the signature b(s, 0) .. b(s, 31), + for +1 and - for -1.
const SIGNATURES: [[u8; 32]; 16] = [
    *b"++++++++++++++++++++++++++++++++",
    *b"++--++--++--++--++--++--++--++--",
    *b"++++----++++----++++----++++----",
    *b"++----++++----++++----++++----++",
    *b"++++++++--------++++++++--------",
    *b"++--++----++--++++--++----++--++",
    *b"++++--------++++++++--------++++",
    *b"++----++--++++--++----++--++++--",
    *b"++++++++++++++++----------------",
    *b"++--++--++--++----++--++--++--++",
    *b"++++----++++--------++++----++++",
    *b"++----++++----++--++++----++++--",
    *b"++++++++----------------++++++++",
    *b"++--++----++--++--++--++++--++--",
    *b"++++--------++++----++++++++----",
    *b"++----++--++++----++++--++----++",
];

// b(s, j) is +1, as the table has it.
fn is_plus(s: usize, j: usize) -> bool
    requires { (s < 16) × (j < 32) }
    ensures { result ≡ is_plus s j }
{
    SIGNATURES[s][j] == b'+'
}

// b(s, j), and 0 outside the table.
pub fn sign(s: usize, j: usize) -> i32
    ensures { result ≡ sign_at s j }
{
    if 16 <= s {
        return 0;
    }
    if 32 <= j {
        return 0;
    }
    if is_plus(s, j) { 1 } else { -1 }
}
