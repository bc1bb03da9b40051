// The search for a slot of a bank (layout, promises and theorems are those of the crate `bank`): docs/RULES.md, 'Bank'; docs/BANK.md.
#![tactic(auto)]

ghost use Rattle.std.specs.Prelude.{◌≡◌, true, cond, Some, None, ltb};
ghost use Rattle.run.specs.Refusals.{range_refused, bank_refused, absent_refused};
ghost use Rattle.run.specs.Verdicts.{or_else, unless};
ghost use Rattle.bank.specs.Slots.{has, taken, is_number};
ghost use Rattle.bank.specs.Layout.{slots_in, is_bank, place_of};
ghost use Rattle.bank.specs.Answers.{found_of};
ghost use Rattle.bank.specs.Outcome.{looked, Find};

use bank::{Found, Looked, Place, front_length};
use bank_check::total_of;
use run::verdict::{Verdict, or_else, unless};
use run::{Reason, Refusal, require};

// Where the slot with a number begins, if there is one: from slot to slot, with no look at the digits.
fn start_of(bank: &[u8], total: usize, number: usize) -> Option<usize>
    requires { (is_bank bank.now ≡ true) × (total ≡ taken (slots_in bank.now)) }
    ensures { result ≡ cond (has number (slots_in bank.now)) (Some (place_of number (slots_in bank.now))) None }
{
    let mut at = 8;
    // A slot's bytes say where the next begins, so no range can be named beforehand.
    while at < total {
        if bank[at] as usize == number {
            return Some(at);
        }
        at += 4 + front_length(&bank[at..total]);
    }
    None
}

// The total taken, and where the slot with a number begins, if there is one; or the refusal of bytes that are no bank.
pub fn look(bank: &[u8], number: usize) -> Result<Looked, Refusal>
    ensures { result ≡ looked bank.now number }
{
    let total = total_of(bank)?;
    let start = start_of(bank, total, number);
    Ok(Looked { total, start })
}

// The slot with a number: the total taken, where it begins and how many digits it has; or the refusal.
pub fn held(bank: &[u8], number: usize) -> Result<Place, Refusal>
    ensures { Find bank.now number (found_of bank.now number result) }
{
    let there = look(bank, number)?;
    require(number <= 255, Reason::Range, 0)?;
    let Some(start) = there.start else {
        return Err(Refusal {
            reason: Reason::Absent,
            place: 0,
        });
    };
    let total = there.total;
    let length = front_length(&bank[start..total]);
    Ok(Place {
        total,
        start,
        length,
    })
}

// 28, 11 and 29 in their order.
fn verdict_of(is_bank: bool, number: usize, length: usize) -> Verdict
    ensures { result ≡ or_else (unless is_bank bank_refused 0) (or_else (unless (is_number number) range_refused 0) (unless (ltb 0 length) absent_refused 0)) }
{
    let last = unless(0 < length, Reason::Absent.number(), 0);
    let range = or_else(unless(number <= 255, Reason::Range.number(), 0), last);
    or_else(unless(is_bank, Reason::Bank.number(), 0), range)
}

// What is told of a bank with or without the slot, and so beside a refusal too: the total taken, and where the slot begins and how many digits it has, which are the total and 0 where there is none; all 0
// where the bytes are no bank.
pub fn find(bank: &[u8], number: usize) -> Found
    ensures { Find bank.now number result }
{
    let Ok(there) = look(bank, number) else {
        return Found {
            verdict: verdict_of(false, number, 0),
            total: 0,
            start: 0,
            length: 0,
        };
    };
    let total = there.total;
    let start = there.start.unwrap_or(total);
    let length = front_length(&bank[start..total]);
    Found {
        verdict: verdict_of(true, number, length),
        total,
        start,
        length,
    }
}
