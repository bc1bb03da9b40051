// The fields of a slot: each is taken from its own stretch of the slot.
ghost use Rattle.std.specs.Prelude.{◌≡◌, ◌<◌, length};
ghost use Rattle.slot.specs.Rule.{tfci_in, data_in, command_in};
ghost use Rattle.slot.specs.Ready.{Ready};

use dpch::Format;
use write::copy;

// Data and TFCI, out of their stretches, and the command that the TPC digits carry.
pub(crate) fn take(f: Format, xs: &[u8], data: &mut [u8], tfci: &mut [u8]) -> usize
    requires { Ready f (length «data».old) (length tfci.old) (length xs.now) × (0 < f.tpc) }
    ensures { (result ≡ command_in f xs.now) × («data».new ≡ data_in f xs.now) × (tfci.new ≡ tfci_in f xs.now) }
{
    let a = f.data1;
    let b = a + f.tpc;
    let c = b + f.tfci;
    let d = c + f.data2;
    let n = a + f.data2;
    copy(&mut data[0..a], xs);
    copy(&mut data[a..n], &xs[c..d]);
    copy(tfci, &xs[b..c]);
    xs[a] as usize
}
