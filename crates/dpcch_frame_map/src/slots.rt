// The fifteen slots of a frame, one after the other: each is lent its own part of every run.
ghost use Rattle.std.specs.Prelude.{◌≡◌, true, ◌≤◌, length};
ghost use Rattle.run.specs.Answers.{verdict_of};
ghost use Rattle.run.specs.First.{Every, at_most};
ghost use Rattle.run.specs.Verdicts.{chain};
ghost use Rattle.dpch.specs.Uplink.{dpcch_format};
ghost use Rattle.dpcch.specs.Rule.{frame_of};
ghost use Rattle.dpcch.specs.Outcome.{slot_fields, Put};
ghost use Rattle.dpcch.specs.Ready.{FrameReady, Room, FieldBits};

use dpdch::are_few_bits;
use run::Refusal;

// Whether all digits of a run are bits. A frame's runs of fields have fifteen digits or thirty.
fn are_bits(s: &[u8]) -> bool
    ensures { result ≡ true → Every (at_most 1 s.now) (length s.now) }
{
    are_few_bits::<15>(s) || are_few_bits::<30>(s) || scan::above(s, 1).is_none()
}

// Whether the fields of all slots are good: each run is looked at as a whole, and a slot by itself only where one of them is not.
pub(crate) fn are_good(tfci: &[u8], fbi: &[u8], commands: &[u8]) -> bool
    ensures { result ≡ true → FieldBits tfci.now fbi.now commands.now }
{
    are_bits(commands) && are_bits(tfci) && are_bits(fbi)
}

// The first slot whose command, TFCI or FBI is refused.
pub(crate) fn check_fields(
    format: usize,
    tfci: &[u8],
    fbi: &[u8],
    commands: &[u8],
) -> Result<(), Refusal>
    requires { FrameReady format (length tfci.now) (length fbi.now) (length commands.now) }
    ensures { verdict_of result ≡ chain 15 (slot_fields format tfci.now fbi.now commands.now) }
{
    let f = dpcch::format_of(format);
    let n = f.tfci;
    let m = f.fbi;
    for k in 0..15 {
        let a = k * n;
        let e = a + n;
        let b = k * m;
        let c = b + m;
        let tpc = commands[k] as usize;
        dpcch_map::check_fields(tpc, &tfci[a..e], &fbi[b..c], k, a as u32, b as u32)?;
    }
    Ok(())
}

// A slot of the frame. The arms stand here once more, beside those of `dpcch_put::put`: so they are the loop's own, and the compiler asks for the format once a frame.
fn put(format: usize, slot: usize, tpc: u8, tfci: &[u8], fbi: &[u8], out: &mut [u8])
    requires { format ≤ 3 }
    ensures { Put format slot tpc tfci.now fbi.now out.old out.new }
{
    match format {
        0 => dpcch_put::put_as(0, slot, tpc, tfci, fbi, out),
        1 => dpcch_put::put_as(1, slot, tpc, tfci, fbi, out),
        2 => dpcch_put::put_as(2, slot, tpc, tfci, fbi, out),
        _ => dpcch_put::put_as(3, slot, tpc, tfci, fbi, out),
    }
}

// Each slot into its part of the frame.
pub(crate) fn write(format: usize, tfci: &[u8], fbi: &[u8], out: &mut [u8], commands: &[u8])
    requires { Room format (length tfci.now) (length fbi.now) (length commands.now) (length out.old) }
    ensures { out.new ≡ frame_of (dpcch_format format) tfci.now fbi.now commands.now }
{
    let f = dpcch::format_of(format);
    let n = f.tfci;
    let m = f.fbi;
    let w = f.slot;
    for slot in 0..15 {
        let a = slot * n;
        let e = a + n;
        let b = slot * m;
        let c = b + m;
        let i = slot * w;
        let j = i + w;
        put(
            format,
            slot,
            commands[slot],
            &tfci[a..e],
            &fbi[b..c],
            &mut out[i..j],
        );
    }
}
