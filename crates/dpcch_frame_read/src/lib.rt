// A frame of the uplink DPCCH, read (rule, promises and theorems are those of the crate `dpcch`): docs/RULES.md, 'Uplink DPCCH'; TS 25.211, 5.2.1.1.
#![tactic(auto)]

ghost use Rattle.std.specs.Prelude.{◌≡◌};
ghost use Rattle.run.specs.Answers.{verdict_of};
ghost use Rattle.dpcch.specs.Outcome.{frame_read_head, frame_read_verdict, FrameRead};

use run::Refusal;

mod slots;

// The checks of format and lengths.
fn check_head(
    format: usize,
    frame_length: usize,
    tfci_length: usize,
    fbi_length: usize,
    commands_length: usize,
) -> Result<(), Refusal>
    ensures { verdict_of result ≡ frame_read_head format frame_length tfci_length fbi_length commands_length }
{
    let f = dpcch::format_of(format);
    let right = [
        frame_length == 15 * f.slot,
        tfci_length == 15 * f.tfci,
        fbi_length == 15 * f.fbi,
        commands_length == 15,
    ];
    dpch::check_frame_head(3, format, &right)
}

fn check(
    format: usize,
    xs: &[u8],
    tfci_length: usize,
    fbi_length: usize,
    commands_length: usize,
) -> Result<(), Refusal>
    ensures { verdict_of result ≡ frame_read_verdict format xs.now tfci_length fbi_length commands_length }
{
    check_head(format, xs.len(), tfci_length, fbi_length, commands_length)?;
    if slots::all_fit(format, xs) {
        return Ok(());
    }
    slots::check_digits(format, xs)
}

// The fields of a frame, or the refusal and the runs as they were.
pub fn read(
    format: usize,
    xs: &[u8],
    tfci: &mut [u8],
    fbi: &mut [u8],
    commands: &mut [u8],
) -> Result<(), Refusal>
    ensures { FrameRead format xs.now tfci.old fbi.old commands.old (verdict_of result) tfci.new fbi.new commands.new }
{
    check(format, xs, tfci.len(), fbi.len(), commands.len())?;
    slots::take(format, xs, tfci, fbi, commands);
    Ok(())
}
