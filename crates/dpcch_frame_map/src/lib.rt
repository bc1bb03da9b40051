// A frame of the uplink DPCCH, mapped (rule, promises and theorems are those of the crate `dpcch`): docs/RULES.md, 'Uplink DPCCH'; TS 25.211, 5.2.1.1.
#![tactic(auto)]

ghost use Rattle.std.specs.Prelude.{◌≡◌};
ghost use Rattle.run.specs.Answers.{verdict_of};
ghost use Rattle.dpcch.specs.Outcome.{frame_map_head, frame_map_verdict, FrameMap};

use run::Refusal;

mod slots;

// The checks of format and lengths.
fn check_head(
    format: usize,
    tfci_length: usize,
    fbi_length: usize,
    out_length: usize,
    commands_length: usize,
) -> Result<(), Refusal>
    ensures { verdict_of result ≡ frame_map_head format tfci_length fbi_length out_length commands_length }
{
    let f = dpcch::format_of(format);
    let right = [
        tfci_length == 15 * f.tfci,
        fbi_length == 15 * f.fbi,
        out_length == 15 * f.slot,
        commands_length == 15,
    ];
    dpch::check_frame_head(3, format, &right)
}

fn check(
    format: usize,
    tfci: &[u8],
    fbi: &[u8],
    out_length: usize,
    commands: &[u8],
) -> Result<(), Refusal>
    ensures { verdict_of result ≡ frame_map_verdict format tfci.now fbi.now out_length commands.now }
{
    check_head(format, tfci.len(), fbi.len(), out_length, commands.len())?;
    if slots::are_good(tfci, fbi, commands) {
        return Ok(());
    }
    slots::check_fields(format, tfci, fbi, commands)
}

// The frame of the fields, or the refusal and `out` as it was.
pub fn map(
    format: usize,
    tfci: &[u8],
    fbi: &[u8],
    out: &mut [u8],
    commands: &[u8],
) -> Result<(), Refusal>
    ensures { FrameMap format tfci.now fbi.now out.old commands.now (verdict_of result) out.new }
{
    check(format, tfci, fbi, out.len(), commands)?;
    slots::write(format, tfci, fbi, out, commands);
    Ok(())
}
