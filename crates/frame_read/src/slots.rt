// The fifteen slots of a frame, one after the other: each is lent its own part of every run.
ghost use Rattle.std.specs.Prelude.{◌≡◌, ◌*◌, length};
ghost use Rattle.run.specs.Answers.{verdict_of};
ghost use Rattle.run.specs.Verdicts.{chain};
ghost use Rattle.dpch.specs.Formats.{format_of};
ghost use Rattle.frame.specs.Rule.{data_in, tfci_in, commands_in};
ghost use Rattle.frame.specs.Outcome.{slot_digits};
ghost use Rattle.frame.specs.Ready.{Room, Bits};

use run::Refusal;
use slot::sizes_of;

// The first slot whose digits are refused.
pub(crate) fn check_digits(format: usize, xs: &[u8]) -> Result<(), Refusal>
    requires { length xs.now ≡ 15 * (format_of format).slot }
    ensures { verdict_of result ≡ chain 15 (slot_digits (format_of format) xs.now) }
{
    let s = sizes_of(format);
    let w = s.slot;
    for k in 0..15 {
        let i = k * w;
        let j = i + w;
        slot_check::check_part(format, k, &xs[i..j], i as u32)?;
    }
    Ok(())
}

// The fields of each slot into their parts of the runs.
pub(crate) fn take(format: usize, xs: &[u8], data: &mut [u8], tfci: &mut [u8], commands: &mut [u8])
    requires { Room format (length «data».old) (length tfci.old) (length commands.old) (length xs.now) × Bits format xs.now }
    ensures { («data».new ≡ data_in (format_of format) xs.now) × (tfci.new ≡ tfci_in (format_of format) xs.now) × (commands.new ≡ commands_in (format_of format) xs.now) }
{
    let s = sizes_of(format);
    let n = s.data;
    let m = s.tfci;
    let w = s.slot;
    for k in 0..15 {
        let a = k * n;
        let e = a + n;
        let b = k * m;
        let c = b + m;
        let i = k * w;
        let j = i + w;
        // No slot is refused here: the frame's lengths are those of its slots.
        let taken = slot_read::take(format, k, &xs[i..j], &mut data[a..e], &mut tfci[b..c]);
        commands[k] = taken.unwrap_or(0) as u8;
    }
}
