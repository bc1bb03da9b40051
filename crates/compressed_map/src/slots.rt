// The slots of a compressed frame, one after the other: each transmitted one is lent its own part of every run.
ghost use Rattle.std.specs.Prelude.{◌≡◌, ◌*◌, ◌<◌, length, get_or};
ghost use Rattle.run.specs.Answers.{verdict_of};
ghost use Rattle.run.specs.Parts.{part};
ghost use Rattle.run.specs.Verdicts.{chain};
ghost use Rattle.dpch.specs.Compressed.{format_in};
ghost use Rattle.slot.specs.Rule.{data_size, slot_of};
ghost use Rattle.slot.specs.Ready.{SizesOf};
ghost use Rattle.frame.specs.Outcome.{slot_fields};
ghost use Rattle.compressed.specs.Rule.{transmitted, slot_at, frame_of};
ghost use Rattle.compressed.specs.Ready.{Ready, Room, Turn};

use run::{DTX, Refusal};
use slot::{Sizes, row_sizes};

// The first transmitted slot whose command, TFCI or data is refused.
pub(crate) fn check_fields(
    kind: usize,
    format: usize,
    missing: usize,
    data: &[u8],
    tfci: &[u8],
    commands: &[u8],
) -> Result<(), Refusal>
    requires { Ready (format_in kind format) missing (length «data».now) (length tfci.now) (length commands.now) }
    ensures { verdict_of result ≡ chain (transmitted missing) (slot_fields (format_in kind format) «data».now tfci.now commands.now) }
{
    let s = row_sizes(kind, format);
    let n = s.data;
    let m = s.tfci;
    let count = compressed::transmitted(missing);
    for k in 0..count {
        let a = k * n;
        let e = a + n;
        let b = k * m;
        let c = b + m;
        let tpc = commands[k] as usize;
        slot_map::check_fields(tpc, &data[a..e], &tfci[b..c], k, b as u32, a as u32)?;
    }
    Ok(())
}

// A transmitted slot into its part of the frame: of its own number, and of the command and the parts of its turn.
fn write_turn(
    kind: usize,
    format: usize,
    s: Sizes,
    slot: usize,
    i: usize,
    data: &[u8],
    tfci: &[u8],
    out: &mut [u8],
    commands: &[u8],
)
    requires { Turn (format_in kind format) s i (length «data».now) (length tfci.now) (length commands.now) (length out.old) }
    ensures { out.new ≡ slot_of (format_in kind format) slot (get_or commands.now i 0) (part i (data_size (format_in kind format)) «data».now) (part i (format_in kind format).tfci tfci.now) }
{
    let a = i * s.data;
    let e = a + s.data;
    let b = i * s.tfci;
    let c = b + s.tfci;
    slot_put::put_row(
        kind,
        format,
        slot,
        commands[i],
        &data[a..e],
        &tfci[b..c],
        out,
    );
}

// Any slot into its part of the frame: that of its turn, or silence.
fn write_slot(
    kind: usize,
    format: usize,
    s: Sizes,
    first: usize,
    missing: usize,
    slot: usize,
    data: &[u8],
    tfci: &[u8],
    out: &mut [u8],
    commands: &[u8],
)
    requires { Room (format_in kind format) first missing (length «data».now) (length tfci.now) (length commands.now) (15 * (format_in kind format).slot) × SizesOf (format_in kind format) s × (slot < 15) × (length out.old ≡ (format_in kind format).slot) }
    ensures { out.new ≡ slot_at (format_in kind format) first missing «data».now tfci.now commands.now slot }
{
    if compressed::is_missing(first, missing, slot) {
        write::fill(out, DTX);
    } else {
        let turn = compressed::turn_of(first, missing, slot);
        write_turn(kind, format, s, slot, turn, data, tfci, out, commands);
    }
}

// Each slot into its part of the frame.
pub(crate) fn write(
    kind: usize,
    format: usize,
    first: usize,
    missing: usize,
    data: &[u8],
    tfci: &[u8],
    out: &mut [u8],
    commands: &[u8],
)
    requires { Room (format_in kind format) first missing (length «data».now) (length tfci.now) (length commands.now) (length out.old) }
    ensures { out.new ≡ frame_of (format_in kind format) first missing «data».now tfci.now commands.now }
{
    let s = row_sizes(kind, format);
    let w = s.slot;
    for k in 0..15 {
        let i = k * w;
        let j = i + w;
        write_slot(
            kind,
            format,
            s,
            first,
            missing,
            k,
            data,
            tfci,
            &mut out[i..j],
            commands,
        );
    }
}
