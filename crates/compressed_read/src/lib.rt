// A compressed frame of the downlink DPCH, read (rule, promises and theorems are those of the crate `compressed`): docs/RULES.md, 'Compressed frames'; TS 25.211, 5.3.2.
#![tactic(auto)]

ghost use Rattle.std.specs.Prelude.{◌≡◌};
ghost use Rattle.run.specs.Answers.{verdict_of};
ghost use Rattle.dpch.specs.Compressed.{format_in};
ghost use Rattle.compressed.specs.Outcome.{read_verdict, Read};

use run::Refusal;

mod slots;

// The checks in their order.
fn check(
    format: usize,
    kind: usize,
    first: usize,
    missing: usize,
    xs: &[u8],
    data_length: usize,
    tfci_length: usize,
    commands_length: usize,
) -> Result<(), Refusal>
    ensures { verdict_of result ≡ read_verdict (format_in kind format) first missing xs.now data_length tfci_length commands_length }
{
    compressed::check_read_head(
        format,
        kind,
        first,
        missing,
        xs.len(),
        data_length,
        tfci_length,
        commands_length,
    )?;
    slots::check_digits(kind, format, first, missing, xs)
}

// The fields of a frame, or the refusal and the runs as they were.
pub fn read(
    format: usize,
    kind: usize,
    first: usize,
    missing: usize,
    xs: &[u8],
    data: &mut [u8],
    tfci: &mut [u8],
    commands: &mut [u8],
) -> Result<(), Refusal>
    ensures { Read format kind first missing xs.now «data».old tfci.old commands.old (verdict_of result) «data».new tfci.new commands.new }
{
    check(
        format,
        kind,
        first,
        missing,
        xs,
        data.len(),
        tfci.len(),
        commands.len(),
    )?;
    slots::take(kind, format, first, missing, xs, data, tfci, commands);
    Ok(())
}
