// The call that takes a slot out of a bank (layout, promises and theorems are those of the crate `bank`): docs/RULES.md, 'Bank'; docs/BANK.md.
#![tactic(auto)]

ghost use Rattle.std.specs.List.{copy_within};
ghost use Rattle.std.specs.Prelude.{◌≡◌, ◌≤◌, length};
ghost use Rattle.run.specs.Answers.{verdict_of};
ghost use Rattle.bank.specs.Outcome.{Drop};

use bank::put_head;
use bank_find::held;
use run::Refusal;

// What stands in `from` to `to` comes down to `start`. It is copied byte by byte: std's `copy_within` would have the C library's memmove called, and the archive asks for memcpy and memset alone.
fn close(bank: &mut [u8], from: usize, to: usize, start: usize)
    requires { (start ≤ from) × (from ≤ to) × (to ≤ length bank.old) }
    ensures { bank.new ≡ copy_within bank.old from to start }
{
    for i in 0..to - from {
        bank[start + i] = bank[from + i];
    }
}

// The bank without the slot with a number: the slots behind it come down, in their order; or the refusal and the bank as it was.
pub fn drop(bank: &mut [u8], number: usize) -> Result<(), Refusal>
    ensures { Drop bank.old number (verdict_of result) bank.new }
{
    let found = held(bank, number)?;
    let total = found.total;
    let start = found.start;
    let size = 4 + found.length;
    close(bank, start + size, total, start);
    put_head(bank, (total - size) as u32);
    Ok(())
}
