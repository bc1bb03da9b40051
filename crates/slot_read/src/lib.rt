// One slot of the downlink DPCH, read: its digits are checked by the crate `slot_check`, and then its fields are taken. Rule, promises and theorems are those of
// the crate `slot`: docs/RULES.md, 'DPCH slot'; TS 25.211, 5.3.2.
#![tactic(auto)]

ghost use Rattle.std.specs.Prelude.{◌≡◌};
ghost use Rattle.run.specs.Answers.{verdict_of};
ghost use Rattle.dpch.specs.Command.{command_of};
ghost use Rattle.dpch.specs.Compressed.{format_in};
ghost use Rattle.slot.specs.Outcome.{read_verdict, Read, Take, TakeRow};

use run::Refusal;

mod fields;

// The checks in their order.
fn check(
    format: usize,
    slot: usize,
    xs: &[u8],
    data_length: usize,
    tfci_length: usize,
) -> Result<(), Refusal>
    ensures { verdict_of result ≡ read_verdict format slot xs.now data_length tfci_length }
{
    slot_heads::read_head(format, slot, xs.len(), data_length, tfci_length)?;
    slot_check::check_part(format, slot, xs, 0)
}

// The fields of a slot with no look at their digits, or the refusal and the runs as they were.
pub fn take(
    format: usize,
    slot: usize,
    xs: &[u8],
    data: &mut [u8],
    tfci: &mut [u8],
) -> Result<usize, Refusal>
    ensures { Take format slot xs.now «data».old tfci.old (command_of result) «data».new tfci.new }
{
    slot_heads::read_head(format, slot, xs.len(), data.len(), tfci.len())?;
    Ok(fields::take(dpch::format_of(format), xs, data, tfci))
}

// .. of a slot of a compressed format's row, where the runs have its lengths; else nothing is taken and the command is 0.
pub fn take_row(kind: usize, format: usize, xs: &[u8], data: &mut [u8], tfci: &mut [u8]) -> usize
    ensures { TakeRow (format_in kind format) xs.now «data».old tfci.old result «data».new tfci.new }
{
    let f = dpch_rows::format_in(kind, format);
    if slot::sizes_are(f, data.len(), tfci.len(), xs.len()) {
        fields::take(f, xs, data, tfci)
    } else {
        0
    }
}

// The fields of a slot, or the refusal and the runs as they were.
pub fn read(
    format: usize,
    slot: usize,
    xs: &[u8],
    data: &mut [u8],
    tfci: &mut [u8],
) -> Result<usize, Refusal>
    ensures { Read format slot xs.now «data».old tfci.old (command_of result) «data».new tfci.new }
{
    check(format, slot, xs, data.len(), tfci.len())?;
    Ok(fields::take(dpch::format_of(format), xs, data, tfci))
}
