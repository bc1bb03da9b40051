// The calls that make a bank and put a slot into it (layout, promises and theorems are those of the crate `bank`): docs/RULES.md, 'Bank'; docs/BANK.md.
#![tactic(auto)]

ghost use Rattle.std.specs.Prelude.{◌≡◌, ◌+◌, ◌≤◌, Ok, length};
ghost use Rattle.run.specs.Answers.{verdict_of};
ghost use Rattle.bank.specs.Plain.{store_plain};
ghost use Rattle.bank.specs.Layout.{slot_bytes, slots_in};
ghost use Rattle.bank.specs.Outcome.{looked, Empty, Store};

use bank::{Looked, is_length, is_room, put_head};
use bank_find::look;
use run::{Reason, Refusal, refused_at, require};

// A bank with no slot: bytes 0 to 7 are written and no other; or the refusal and the buffer as it was.
pub fn empty(bank: &mut [u8]) -> Result<(), Refusal>
    ensures { Empty bank.old (verdict_of result) bank.new }
{
    require(is_room(bank.len()), Reason::Bank, 0)?;
    put_head(bank, 8);
    Ok(())
}

// 11, 3, 4, 30 and 31 in their order, of bytes that are a bank.
fn check(bank: &[u8], there: Looked, number: usize, slot: &[u8]) -> Result<(), Refusal>
    requires { Ok there ≡ looked bank.now number }
    ensures { verdict_of result ≡ store_plain (length bank.now) (slots_in bank.now) number slot.now }
{
    require(number <= 255, Reason::Range, 0)?;
    require(is_length(slot.len()), Reason::Length, 0)?;
    refused_at(slot, scan::above(slot, 2), Reason::Digit, 0)?;
    require(there.start.is_none(), Reason::Present, 0)?;
    let fits = there.total + (4 + slot.len()) <= bank.len();
    require(fits, Reason::Room, 0)
}

// A slot as it is held: number, a zero byte, the length with its high byte first, the digits.
fn write_slot(dst: &mut [u8], number: u8, slot: &[u8])
    requires { (length slot.now ≤ 1280) × (length dst.old ≡ 4 + length slot.now) }
    ensures { dst.new ≡ slot_bytes (record { number = number; digits = slot.now }) }
{
    let [high, low] = (slot.len() as u16).to_be_bytes();
    let front = [number, 0, high, low];
    dst[..4].copy_from_slice(&front);
    write::copy(&mut dst[4..], slot);
}

// The slot behind the others, or the refusal and the bank as it was.
pub fn store(bank: &mut [u8], number: usize, slot: &[u8]) -> Result<(), Refusal>
    ensures { Store bank.old number slot.now (verdict_of result) bank.new }
{
    let there = look(bank, number)?;
    check(bank, there, number, slot)?;
    let total = there.total;
    let end = total + (4 + slot.len());
    write_slot(&mut bank[total..end], number as u8, slot);
    put_head(bank, end as u32);
    Ok(())
}
