// The pilot field of a slot of the downlink DPCH, written (rule, promises and theorems are those of the crates `dpch` and `slot`): docs/RULES.md, 'DPCH slot'; TS 25.211, 5.3.2, and on antenna 2 5.3.2.1.
#![tactic(auto)]

ghost use Rattle.std.specs.Prelude.{◌≡◌, ◌≤◌, length};
ghost use Rattle.run.specs.Written.{over};
ghost use Rattle.dpch.specs.Formats.{kind_b};
ghost use Rattle.dpch.specs.Pilots.{pilot_source};
ghost use Rattle.dpch.specs.Compressed.{source_for};
ghost use Rattle.dpch.specs.SecondPilots.{second_source};

use dpch::KIND_B;

// The first n digits of `src` into a field of n. Here n is a number where the function is called, so that a field is one store.
fn copy_n(dst: &mut [u8], src: &[u8], n: usize)
    requires { (length dst.old ≡ n) × (n ≤ length src.now) }
    ensures { dst.new ≡ over src.now dst.old }
{
    dst.copy_from_slice(&src[..n]);
}

// The pilot of a slot, as long as the field. A row that is lent with no known end has to stand in memory, so the fields of other widths have a row of their own.
fn write_plain(dst: &mut [u8], slot: usize)
    ensures { dst.new ≡ over (pilot_source (length dst.old) slot) dst.old }
{
    let row = dpch_pilot::pilot_row(0, slot);
    match dst.len() {
        2 => copy_n(dst, &row[2..4], 2),
        4 => copy_n(dst, &row, 4),
        8 => copy_n(dst, &row, 8),
        16 => copy_n(dst, &row, 16),
        _ => {
            let other = dpch_pilot::pilot_row(0, slot);
            write::copy(dst, &other)
        }
    }
}

// .. of a format B, in which each pair of bits stands twice. It names its own widths: one function for both would be handed them, and they would be numbers no more.
fn write_doubled(dst: &mut [u8], slot: usize)
    ensures { dst.new ≡ over (source_for kind_b (length dst.old) slot) dst.old }
{
    let row = dpch_rows::doubled_row(slot);
    match dst.len() {
        4 => copy_n(dst, &row[4..8], 4),
        8 => copy_n(dst, &row, 8),
        16 => copy_n(dst, &row, 16),
        32 => copy_n(dst, &row, 32),
        _ => {
            let other = dpch_rows::doubled_row(slot);
            write::copy(dst, &other)
        }
    }
}

// The pilot of a slot, of a format's kind.
pub fn write_pilot(dst: &mut [u8], kind: usize, slot: usize)
    ensures { dst.new ≡ over (source_for kind (length dst.old) slot) dst.old }
{
    if kind == KIND_B {
        write_doubled(dst, slot);
    } else {
        write_plain(dst, slot);
    }
}

// .. on antenna 2 in the normal formats, where the pilot of four bits begins with that of two and is not the beginning of the longer ones.
pub fn write_second(dst: &mut [u8], slot: usize)
    ensures { dst.new ≡ over (second_source (length dst.old) slot) dst.old }
{
    match dst.len() {
        2 => {
            let two = dpch_four::pilot_four(slot);
            copy_n(dst, &two, 2)
        }
        4 => {
            let four = dpch_four::pilot_four(slot);
            copy_n(dst, &four, 4)
        }
        8 => {
            let eight = dpch_pilot::pilot_row(1, slot);
            copy_n(dst, &eight, 8)
        }
        16 => {
            let row = dpch_pilot::pilot_row(1, slot);
            copy_n(dst, &row, 16)
        }
        _ => {
            let other = dpch_pilot::pilot_row(1, slot);
            write::copy(dst, &other)
        }
    }
}
