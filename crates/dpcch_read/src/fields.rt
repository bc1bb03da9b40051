// The fields of a slot: each is taken from its own stretch of the slot.
ghost use Rattle.std.specs.Prelude.{◌≡◌, ◌<◌, length};
ghost use Rattle.dpcch.specs.Rule.{tfci_in, fbi_in, command_in};
ghost use Rattle.dpcch.specs.Ready.{Whole, Ready};

use dpch::Dpcch;
use write::copy;

// TFCI and FBI, out of their stretches.
pub(crate) fn take(f: Dpcch, xs: &[u8], tfci: &mut [u8], fbi: &mut [u8])
    requires { Ready f (length tfci.old) (length fbi.old) (length xs.now) }
    ensures { (tfci.new ≡ tfci_in f xs.now) × (fbi.new ≡ fbi_in f xs.now) }
{
    let a = f.pilot;
    let b = a + f.tfci;
    let c = b + f.fbi;
    copy(tfci, &xs[a..b]);
    copy(fbi, &xs[b..c]);
}

// The command that the TPC digits carry.
pub(crate) fn command(f: Dpcch, xs: &[u8]) -> usize
    requires { Whole f (length xs.now) × (0 < f.tpc) }
    ensures { result ≡ command_in f xs.now }
{
    let a = f.pilot + f.tfci + f.fbi;
    xs[a] as usize
}
