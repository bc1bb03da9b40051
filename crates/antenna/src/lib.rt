// One slot of the downlink DPCH on two antennas: its rule, promises and theorems, and what antenna 2 sends where antenna 1's digits are known:
// docs/RULES.md, 'DPCH on the second antenna'; TS 25.211, 5.3.2.1.
#![tactic(auto)]

ghost use Rattle.std.specs.Prelude.{◌≡◌, length};
ghost use Rattle.dpch.specs.Formats.{format_of};
ghost use Rattle.antenna.specs.Rule.{second_of, coded_from, coded_to};
ghost use Rattle.antenna.specs.Outcome.{second_over};

use dpch::Format;
use slot_pilot::write_second;
use write::copy;

// Where the digits that are encoded begin: at spreading factor 512 behind the TPC digits, which are the same on both antennas.
fn coded_from(format: usize) -> usize
    ensures { result ≡ coded_from format }
{
    if format <= 1 { 2 } else { 0 }
}

// Where they end: a pilot of two bits is encoded with the data before it.
fn coded_to(format: usize, f: Format) -> usize
    requires { f ≡ format_of format }
    ensures { result ≡ coded_to format }
{
    if f.pilot == 2 {
        return f.slot;
    }
    f.slot - f.pilot
}

// What stands before the encoded digits, those digits, and the pilot of table 14, each in its own stretch.
fn write(format: usize, f: Format, slot: usize, first: &[u8], out: &mut [u8])
    requires { (f ≡ format_of format) × (length first.now ≡ (format_of format).slot) × (length out.old ≡ (format_of format).slot) }
    ensures { out.new ≡ second_of format slot first.now }
{
    let a = coded_from(format);
    let e = coded_to(format, f);
    let n = first.len();
    copy(&mut out[0..a], first);
    sttd_digits::encode(&first[a..e], &mut out[a..e]);
    write_second(&mut out[e..n], slot);
}

// Antenna 2's digits for those of antenna 1, whatever they are; runs that are no slots of the format are left as they were.
pub fn second_of(format: usize, slot: usize, first: &[u8], out: &mut [u8])
    ensures { out.new ≡ second_over format slot first.now out.old }
{
    let f = dpch::format_of(format);
    if first.len() != f.slot {
        return;
    }
    if out.len() != f.slot {
        return;
    }
    write(format, f, slot, first, out);
}
