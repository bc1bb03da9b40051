// The check of a whole bank (layout, promises and theorems are those of the crate `bank`): docs/RULES.md, 'Bank'; docs/BANK.md.
#![tactic(auto)]

ghost use Rattle.std.specs.Prelude.{◌≡◌};
ghost use Rattle.bank.specs.Layout.{is_bank};
ghost use Rattle.bank.specs.Outcome.{bank_total};

use bank::head_total;
use bank_front::front_size;
use run::{Reason, Refusal};

// Whether the bytes are a bank: a header, and then slot behind slot, each with a number that none before it had, up to the total. Each byte is looked at once, and the digits of a
// slot many at a time.
pub fn is_bank(bank: &[u8]) -> bool
    ensures { result ≡ is_bank bank.now }
{
    let Some(total) = head_total(bank) else {
        return false;
    };
    let mut seen = [false; 256];
    let mut at = 8;
    // A slot's bytes say where the next begins, so no range can be named beforehand.
    while at < total {
        let Some(size) = front_size(&bank[at..total]) else {
            return false;
        };
        let number = bank[at] as usize;
        if seen[number] {
            return false;
        }
        seen[number] = true;
        at += size;
    }
    true
}

// The total taken of a bank, or the refusal of bytes that are none.
pub fn total_of(bank: &[u8]) -> Result<usize, Refusal>
    ensures { result ≡ bank_total bank.now }
{
    match head_total(bank) {
        Some(total) if is_bank(bank) => Ok(total),
        _ => Err(Refusal {
            reason: Reason::Bank,
            place: 0,
        }),
    }
}
