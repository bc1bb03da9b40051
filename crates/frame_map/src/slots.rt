// The fifteen slots of a frame, one after the other: each is lent its own part of every run.
ghost use Rattle.std.specs.Prelude.{◌≡◌, length};
ghost use Rattle.run.specs.Answers.{verdict_of};
ghost use Rattle.run.specs.Verdicts.{chain};
ghost use Rattle.dpch.specs.Formats.{format_of};
ghost use Rattle.frame.specs.Rule.{frame_of};
ghost use Rattle.frame.specs.Outcome.{slot_fields};
ghost use Rattle.frame.specs.Ready.{Ready, Room};

use run::Refusal;
use slot::sizes_of;

// The first slot whose command, TFCI or data is refused.
pub(crate) fn check_fields(
    format: usize,
    data: &[u8],
    tfci: &[u8],
    commands: &[u8],
) -> Result<(), Refusal>
    requires { Ready format (length «data».now) (length tfci.now) (length commands.now) }
    ensures { verdict_of result ≡ chain 15 (slot_fields (format_of format) «data».now tfci.now commands.now) }
{
    let s = sizes_of(format);
    let n = s.data;
    let m = s.tfci;
    for k in 0..15 {
        let a = k * n;
        let e = a + n;
        let b = k * m;
        let c = b + m;
        let tpc = commands[k] as usize;
        slot_map::check_fields(tpc, &data[a..e], &tfci[b..c], k, b as u32, a as u32)?;
    }
    Ok(())
}

// Each slot into its part of the frame.
pub(crate) fn write(format: usize, data: &[u8], tfci: &[u8], out: &mut [u8], commands: &[u8])
    requires { Room format (length «data».now) (length tfci.now) (length commands.now) (length out.old) }
    ensures { out.new ≡ frame_of (format_of format) «data».now tfci.now commands.now }
{
    let s = sizes_of(format);
    let n = s.data;
    let m = s.tfci;
    let w = s.slot;
    for slot in 0..15 {
        let a = slot * n;
        let e = a + n;
        let b = slot * m;
        let c = b + m;
        let i = slot * w;
        let j = i + w;
        // No slot is refused here: the frame's lengths are those of its slots.
        let _ = slot_put::put(
            format,
            slot,
            commands[slot],
            &data[a..e],
            &tfci[b..c],
            &mut out[i..j],
        );
    }
}
