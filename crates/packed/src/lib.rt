// Number, place and value in one 64-bit number, as the C calls answer: docs/RULES.md, 'Packed answers'.
#![tactic(auto)]

ghost use Rattle.std.specs.Prelude.{◌≡◌};
ghost use Rattle.run.specs.Answers.{value_of, verdict_of};
ghost use Rattle.run.specs.Verdicts.{refused};
ghost use Rattle.packed.specs.Outcome.{packed_cut};

use run::Refusal;

// Number in bits 0 to 15, place in bits 16 to 47, value in bits 48 to 63. A part that is too wide loses its high bits, so that it cannot spoil the others.
pub fn pack(number: usize, place: usize, value: usize) -> u64
    ensures { result ≡ packed_cut (refused number place) value }
{
    let first = (number % 65536) as u64;
    let second = (place % 4294967296) as u64;
    let third = (value % 65536) as u64;
    first + 65536 * second + 281474976710656 * third
}

// What a call answers that gives a number.
pub fn answer(told: Result<usize, Refusal>) -> u64
    ensures { result ≡ packed_cut (verdict_of told) (value_of told) }
{
    match told {
        Ok(value) => pack(0, 0, value),
        Err(refusal) => pack(refusal.reason.number(), refusal.place, 0),
    }
}

// .. and one that gives none.
pub fn done(told: Result<(), Refusal>) -> u64
    ensures { result ≡ packed_cut (verdict_of told) 0 }
{
    match told {
        Ok(()) => 0,
        Err(refusal) => answer(Err(refusal)),
    }
}
