// A compressed frame of the downlink DPCH, mapped (rule, promises and theorems are those of the crate `compressed`): docs/RULES.md, 'Compressed frames'; TS 25.211, 5.3.2.
#![tactic(auto)]

ghost use Rattle.std.specs.Prelude.{◌≡◌};
ghost use Rattle.run.specs.Answers.{verdict_of};
ghost use Rattle.dpch.specs.Compressed.{format_in};
ghost use Rattle.compressed.specs.Outcome.{map_verdict, Map};

use run::Refusal;

mod slots;

// The checks in their order.
fn check(
    format: usize,
    kind: usize,
    first: usize,
    missing: usize,
    data: &[u8],
    tfci: &[u8],
    out_length: usize,
    commands: &[u8],
) -> Result<(), Refusal>
    ensures { verdict_of result ≡ map_verdict (format_in kind format) first missing «data».now tfci.now out_length commands.now }
{
    compressed::check_map_head(
        format,
        kind,
        first,
        missing,
        data.len(),
        tfci.len(),
        out_length,
        commands.len(),
    )?;
    slots::check_fields(kind, format, missing, data, tfci, commands)
}

// The frame of the fields, or the refusal and `out` as it was.
pub fn map(
    format: usize,
    kind: usize,
    first: usize,
    missing: usize,
    data: &[u8],
    tfci: &[u8],
    out: &mut [u8],
    commands: &[u8],
) -> Result<(), Refusal>
    ensures { Map format kind first missing «data».now tfci.now out.old commands.now (verdict_of result) out.new }
{
    check(
        format,
        kind,
        first,
        missing,
        data,
        tfci,
        out.len(),
        commands,
    )?;
    slots::write(kind, format, first, missing, data, tfci, out, commands);
    Ok(())
}
