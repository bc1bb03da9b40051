// A bank of stimulus slots in a lent buffer: docs/RULES.md, 'Bank'; docs/BANK.md. Here are the parts that look at a header and at a slot's length, and the one that writes a header. The
// look at a whole slot, the check of a whole bank, the search for a slot and the calls stand in the crates `bank_front`, `bank_check`, `bank_find`, `bank_read`, `bank_store` and `bank_drop`.
#![tactic(auto)]

ghost use Rattle.std.specs.Prelude.{◌≡◌, ◌+◌, ◌≤◌, length};
ghost use Rattle.run.specs.Written.{over};
ghost use Rattle.bank.specs.Slots.{is_length};
ghost use Rattle.bank.specs.Layout.{head, four_at, is_room};
ghost use Rattle.bank.specs.Outcome.{nonzero, head_total, front_length};

use run::verdict::Verdict;

// A bank that was looked through for a slot: the total taken, and where the slot begins, if it is there.
#[derive(Clone, Copy)]
pub struct Looked {
    pub total: usize,
    pub start: Option<usize>,
}

// A slot that is there: the total taken, where the slot begins and how many digits it has.
#[derive(Clone, Copy)]
pub struct Place {
    pub total: usize,
    pub start: usize,
    pub length: usize,
}

// What the search for a slot answers: whether it is there, the total taken, where the slot begins and how many digits it has.
#[derive(Clone, Copy)]
pub struct Found {
    pub verdict: Verdict,
    pub total: usize,
    pub start: usize,
    pub length: usize,
}

// The mark SLTB as the number of its four bytes, high byte first.
const MARK: usize = 1397511234;

// A buffer has 8 to 65536 bytes.
#[tactic(auto, unfolding(crate::specs::Layout::is_room))]
pub fn is_room(n: usize) -> bool
    ensures { result ≡ is_room n }
{
    (8..=65536).contains(&n)
}

// A slot has 10 to 1280 digits.
#[tactic(auto, unfolding(crate::specs::Slots::is_length))]
pub fn is_length(n: usize) -> bool
    ensures { result ≡ is_length n }
{
    (10..=1280).contains(&n)
}

// The number that four bytes give, high byte first.
#[tactic(auto, unfolding(crate::specs::Layout::four_at))]
fn four_at(s: &[u8], at: usize) -> usize
    requires { «at» + 4 ≤ length s.now }
    ensures { result ≡ four_at s.now «at» }
{
    u32::from_be_bytes([s[at], s[at + 1], s[at + 2], s[at + 3]]) as usize
}

// The total taken as a header gives it, if the buffer begins with one.
pub fn head_total(bank: &[u8]) -> Option<usize>
    ensures { result ≡ nonzero (head_total bank.now) }
{
    if !is_room(bank.len()) || four_at(bank, 0) != MARK {
        return None;
    }
    let total = four_at(bank, 4);
    if total < 8 || bank.len() < total {
        return None;
    }
    Some(total)
}

// The header of a total over the front of a buffer.
#[tactic(auto, unfolding(crate::specs::Layout::head))]
pub fn put_head(bank: &mut [u8], total: u32)
    ensures { bank.new ≡ over (head total) bank.old }
{
    let [first, second, third, last] = total.to_be_bytes();
    let head = [83u8, 76, 84, 66, first, second, third, last];
    write::copy(bank, &head);
}

// The number of digits that the front of a run gives, 0 where it has not the four bytes in front of a slot's digits. No slot has 0 digits, and the walk from slot to slot adds the number.
#[tactic(auto, unfolding(crate::specs::Outcome::front_length, crate::specs::Layout::length_in))]
pub fn front_length(s: &[u8]) -> usize
    ensures { result ≡ front_length s.now }
{
    if s.len() < 4 {
        return 0;
    }
    u16::from_be_bytes([s[2], s[3]]) as usize
}
