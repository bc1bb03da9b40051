// The bank of slots for a C host: each call is that of the crates `bank_store`, `bank_read` and `bank_drop`, with the answer packed in one number (docs/INTERFACE.md, docs/BANK.md).
#![tactic(auto)]

ghost use Rattle.slt_bank.specs.Outcome.{BankEmpty, BankStore, BankFetch, BankDrop, BankLength, BankRoom};

use packed::{answer, done};

#[unsafe(no_mangle)]
pub extern "C" fn slt_bank_empty(bank: &mut [u8]) -> u64
    ensures { BankEmpty bank.old result bank.new }
{
    done(bank_store::empty(bank))
}

#[unsafe(no_mangle)]
pub extern "C" fn slt_bank_store(bank: &mut [u8], number: usize, slot: &[u8]) -> u64
    ensures { BankStore bank.old number slot.now result bank.new }
{
    done(bank_store::store(bank, number, slot))
}

#[unsafe(no_mangle)]
pub extern "C" fn slt_bank_fetch(bank: &[u8], number: usize, out: &mut [u8]) -> u64
    ensures { BankFetch bank.now number out.old result out.new }
{
    done(bank_read::fetch(bank, number, out))
}

#[unsafe(no_mangle)]
pub extern "C" fn slt_bank_drop(bank: &mut [u8], number: usize) -> u64
    ensures { BankDrop bank.old number result bank.new }
{
    done(bank_drop::drop(bank, number))
}

#[unsafe(no_mangle)]
pub extern "C" fn slt_bank_length(bank: &[u8], number: usize) -> u64
    ensures { BankLength bank.now number result }
{
    answer(bank_read::length_of(bank, number))
}

#[unsafe(no_mangle)]
pub extern "C" fn slt_bank_room(bank: &[u8]) -> u64
    ensures { BankRoom bank.now result }
{
    answer(bank_read::room(bank))
}
