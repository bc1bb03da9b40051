// One slot of the downlink DPCH, written (rule, promises and theorems are those of the crate `slot`): docs/RULES.md, 'DPCH slot'; TS 25.211, 5.3.2.
#![tactic(auto)]

ghost use Rattle.std.specs.Prelude.{◌≡◌, length};
ghost use Rattle.run.specs.Answers.{verdict_of};
ghost use Rattle.slot.specs.Rule.{slot_of};
ghost use Rattle.slot.specs.Ready.{Ready};
ghost use Rattle.dpch.specs.Compressed.{format_in};
ghost use Rattle.slot.specs.Outcome.{Put, PutRow};

use dpch::Format;
use run::Refusal;
use slot_pilot::write_pilot;
use write::{copy, fill};

// The five fields, each into its own stretch. A copy goes as far as the field.
fn write(f: Format, slot: usize, tpc: u8, data: &[u8], tfci: &[u8], out: &mut [u8])
    requires { Ready f (length «data».now) (length tfci.now) (length out.old) }
    ensures { out.new ≡ slot_of f slot tpc «data».now tfci.now }
{
    let a = f.data1;
    let b = a + f.tpc;
    let c = b + f.tfci;
    let d = c + f.data2;
    let e = d + f.pilot;
    copy(&mut out[0..a], data);
    fill(&mut out[a..b], tpc);
    copy(&mut out[b..c], tfci);
    copy(&mut out[c..d], &data[a..]);
    write_pilot(&mut out[d..e], f.kind, slot);
}

// The slot of the fields with no look at their digits, or the refusal and `out` as it was.
pub fn put(
    format: usize,
    slot: usize,
    tpc: u8,
    data: &[u8],
    tfci: &[u8],
    out: &mut [u8],
) -> Result<(), Refusal>
    ensures { Put format slot tpc «data».now tfci.now out.old (verdict_of result) out.new }
{
    slot_heads::map_head(format, slot, data.len(), tfci.len(), out.len())?;
    write(dpch::format_of(format), slot, tpc, data, tfci, out);
    Ok(())
}

// .. of a row of a compressed format, where the runs have its lengths.
pub fn put_row(
    kind: usize,
    format: usize,
    slot: usize,
    tpc: u8,
    data: &[u8],
    tfci: &[u8],
    out: &mut [u8],
)
    ensures { PutRow (format_in kind format) slot tpc «data».now tfci.now out.old out.new }
{
    let f = dpch_rows::format_in(kind, format);
    if slot::sizes_are(f, data.len(), tfci.len(), out.len()) {
        write(f, slot, tpc, data, tfci, out);
    }
}
