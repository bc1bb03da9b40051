// The calls that read a bank (layout, promises and theorems are those of the crate `bank`): docs/RULES.md, 'Bank'; docs/BANK.md.
#![tactic(auto)]

ghost use Rattle.run.specs.Answers.{verdict_of};
ghost use Rattle.bank.specs.Answers.{counted_of};
ghost use Rattle.bank.specs.Outcome.{Fetch, Length, Room};

use bank_check::total_of;
use bank_find::held;
use run::{Reason, Refusal, require};

// The digits of the slot with a number, or the refusal and `out` as it was.
pub fn fetch(bank: &[u8], number: usize, out: &mut [u8]) -> Result<(), Refusal>
    ensures { Fetch bank.now number out.old (verdict_of result) out.new }
{
    let found = held(bank, number)?;
    let length = found.length;
    require(out.len() == length, Reason::Length, 0)?;
    let start = found.start + 4;
    write::copy(out, &bank[start..start + length]);
    Ok(())
}

// How many digits the slot with a number has.
pub fn length_of(bank: &[u8], number: usize) -> Result<usize, Refusal>
    ensures { Length bank.now number (counted_of result) }
{
    let found = held(bank, number)?;
    Ok(found.length)
}

// How many bytes are not taken.
pub fn room(bank: &[u8]) -> Result<usize, Refusal>
    ensures { Room bank.now (counted_of result) }
{
    let total = total_of(bank)?;
    Ok(bank.len() - total)
}
