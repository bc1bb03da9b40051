// One slot of the uplink DPCCH, read: its digits are checked by the crate `dpcch_check`, and then its fields are taken. Rule, promises and theorems are those of
// the crate `dpcch`: docs/RULES.md, 'Uplink DPCCH'; TS 25.211, 5.2.1.1.
#![tactic(auto)]

ghost use Rattle.std.specs.Prelude.{◌≡◌};
ghost use Rattle.run.specs.Answers.{verdict_of};
ghost use Rattle.dpch.specs.Command.{command_of};
ghost use Rattle.dpcch.specs.Outcome.{read_head, read_verdict, Read, Take};

use run::Refusal;

mod fields;

// The checks of numbers and lengths before a slot is read.
fn check_head(
    format: usize,
    slot: usize,
    slot_length: usize,
    tfci_length: usize,
    fbi_length: usize,
) -> Result<(), Refusal>
    ensures { verdict_of result ≡ read_head format slot slot_length tfci_length fbi_length }
{
    let f = dpcch::format_of(format);
    let right = [
        slot_length == f.slot,
        tfci_length == f.tfci,
        fbi_length == f.fbi,
    ];
    dpch::check_slot_head(3, format, slot, &right)
}

fn check(
    format: usize,
    slot: usize,
    xs: &[u8],
    tfci_length: usize,
    fbi_length: usize,
) -> Result<(), Refusal>
    ensures { verdict_of result ≡ read_verdict format slot xs.now tfci_length fbi_length }
{
    check_head(format, slot, xs.len(), tfci_length, fbi_length)?;
    if dpcch_fits::fits(format, slot, xs) {
        return Ok(());
    }
    dpcch_check::check(format, slot, xs, 0)
}

// The fields of a slot with no look at their digits, and the command, where the lengths are the format's; else 0, and the runs as they were.
fn take_as(format: usize, xs: &[u8], tfci: &mut [u8], fbi: &mut [u8]) -> usize
    ensures { Take format xs.now tfci.old fbi.old result tfci.new fbi.new }
{
    if !dpcch::sizes_are(format, tfci.len(), fbi.len(), xs.len()) {
        return 0;
    }
    let f = dpcch::format_of(format);
    fields::take(f, xs, tfci, fbi);
    fields::command(f, xs)
}

// The same. Where the format is a number, so is the width of each field.
pub fn take(format: usize, xs: &[u8], tfci: &mut [u8], fbi: &mut [u8]) -> usize
    ensures { Take format xs.now tfci.old fbi.old result tfci.new fbi.new }
{
    match format {
        0 => take_as(0, xs, tfci, fbi),
        1 => take_as(1, xs, tfci, fbi),
        2 => take_as(2, xs, tfci, fbi),
        3 => take_as(3, xs, tfci, fbi),
        _ => take_as(format, xs, tfci, fbi),
    }
}

// The command of a slot, and its fields into the runs, or the refusal and the runs as they were.
pub fn read(
    format: usize,
    slot: usize,
    xs: &[u8],
    tfci: &mut [u8],
    fbi: &mut [u8],
) -> Result<usize, Refusal>
    ensures { Read format slot xs.now tfci.old fbi.old (command_of result) tfci.new fbi.new }
{
    check(format, slot, xs, tfci.len(), fbi.len())?;
    Ok(take(format, xs, tfci, fbi))
}
