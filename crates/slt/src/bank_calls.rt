// The bank of slots: each call is that of the crate `slt_bank`, with the same promise.

ghost use Rattle.slt_bank.specs.Outcome.{BankEmpty, BankStore, BankFetch, BankDrop, BankLength, BankRoom};

#[unsafe(no_mangle)]
pub extern "C" fn slt_bank_empty(bank: &mut [u8]) -> u64
    ensures { BankEmpty bank.old result bank.new }
{
    slt_bank::slt_bank_empty(bank)
}

#[unsafe(no_mangle)]
pub extern "C" fn slt_bank_store(bank: &mut [u8], number: usize, slot: &[u8]) -> u64
    ensures { BankStore bank.old number slot.now result bank.new }
{
    slt_bank::slt_bank_store(bank, number, slot)
}

#[unsafe(no_mangle)]
pub extern "C" fn slt_bank_fetch(bank: &[u8], number: usize, out: &mut [u8]) -> u64
    ensures { BankFetch bank.now number out.old result out.new }
{
    slt_bank::slt_bank_fetch(bank, number, out)
}

#[unsafe(no_mangle)]
pub extern "C" fn slt_bank_drop(bank: &mut [u8], number: usize) -> u64
    ensures { BankDrop bank.old number result bank.new }
{
    slt_bank::slt_bank_drop(bank, number)
}

#[unsafe(no_mangle)]
pub extern "C" fn slt_bank_length(bank: &[u8], number: usize) -> u64
    ensures { BankLength bank.now number result }
{
    slt_bank::slt_bank_length(bank, number)
}

#[unsafe(no_mangle)]
pub extern "C" fn slt_bank_room(bank: &[u8]) -> u64
    ensures { BankRoom bank.now result }
{
    slt_bank::slt_bank_room(bank)
}
