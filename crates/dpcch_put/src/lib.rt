// One slot of the uplink DPCCH, written (rule, promises and theorems are those of the crate `dpcch`): docs/RULES.md, 'Uplink DPCCH'; TS 25.211, 5.2.1.1.
#![tactic(auto)]

ghost use Rattle.std.specs.Prelude.{◌≡◌, length};
ghost use Rattle.run.specs.Written.{over};
ghost use Rattle.dpcch.specs.Rule.{slot_of};
ghost use Rattle.dpcch.specs.Ready.{pilot_source, Ready};
ghost use Rattle.dpcch.specs.Outcome.{Put};

use dpch::Dpcch;
use write::{copy, fill};

// The pilot of a slot, as long as the field.
fn write_pilot(dst: &mut [u8], slot: usize)
    ensures { dst.new ≡ over (pilot_source (length dst.old) slot) dst.old }
{
    let row = dpcch_pilot::pilot_row(slot);
    let a = dpcch_pilot::pilot_start(dst.len());
    copy(dst, &row[a..15]);
}

// The four fields, each into its own stretch. A copy goes as far as the field.
fn write(f: Dpcch, slot: usize, tpc: u8, tfci: &[u8], fbi: &[u8], out: &mut [u8])
    requires { Ready f (length tfci.now) (length fbi.now) (length out.old) }
    ensures { out.new ≡ slot_of f slot tpc tfci.now fbi.now }
{
    let a = f.pilot;
    let b = a + f.tfci;
    let c = b + f.fbi;
    let d = c + f.tpc;
    write_pilot(&mut out[0..a], slot);
    copy(&mut out[a..b], tfci);
    copy(&mut out[b..c], fbi);
    fill(&mut out[c..d], tpc);
}

// The slot of the fields with no look at their digits, where the table has the format and their lengths are its; else `out` as it was. Where the format is a number, so
// is the width of each field, and a slot is a few stores.
pub fn put_as(format: usize, slot: usize, tpc: u8, tfci: &[u8], fbi: &[u8], out: &mut [u8])
    ensures { Put format slot tpc tfci.now fbi.now out.old out.new }
{
    if dpcch::sizes_are(format, tfci.len(), fbi.len(), out.len()) {
        write(dpcch::format_of(format), slot, tpc, tfci, fbi, out);
    }
}

// The same, by an arm for each format, which names it.
pub fn put(format: usize, slot: usize, tpc: u8, tfci: &[u8], fbi: &[u8], out: &mut [u8])
    ensures { Put format slot tpc tfci.now fbi.now out.old out.new }
{
    match format {
        0 => put_as(0, slot, tpc, tfci, fbi, out),
        1 => put_as(1, slot, tpc, tfci, fbi, out),
        2 => put_as(2, slot, tpc, tfci, fbi, out),
        3 => put_as(3, slot, tpc, tfci, fbi, out),
        _ => {}
    }
}
