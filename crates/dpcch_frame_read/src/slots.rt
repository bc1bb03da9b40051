// The fifteen slots of a frame, one after the other: each is lent its own part of every run.
ghost use Rattle.std.specs.Prelude.{◌≡◌, true, ◌*◌, length};
ghost use Rattle.run.specs.Answers.{verdict_of};
ghost use Rattle.run.specs.Verdicts.{chain, done};
ghost use Rattle.dpch.specs.Uplink.{dpcch_format};
ghost use Rattle.dpcch.specs.Rule.{frame_tfci_in, frame_fbi_in, commands_in};
ghost use Rattle.dpcch.specs.Outcome.{slot_digits};
ghost use Rattle.dpcch.specs.Ready.{Room, Bits};

use run::Refusal;

// Whether every slot is one that some fields give; if not, check_digits tells which is not.
pub(crate) fn all_fit(format: usize, xs: &[u8]) -> bool
    requires { length xs.now ≡ 15 * (dpcch_format format).slot }
    ensures { result ≡ true → chain 15 (slot_digits format xs.now) ≡ done }
{
    let f = dpcch::format_of(format);
    let w = f.slot;
    let mut good = true;
    for k in 0..15 {
        let i = k * w;
        let j = i + w;
        if !dpcch_fits::fits(format, k, &xs[i..j]) {
            good = false;
        }
    }
    good
}

// The first slot whose digits are refused.
pub(crate) fn check_digits(format: usize, xs: &[u8]) -> Result<(), Refusal>
    requires { length xs.now ≡ 15 * (dpcch_format format).slot }
    ensures { verdict_of result ≡ chain 15 (slot_digits format xs.now) }
{
    let f = dpcch::format_of(format);
    let w = f.slot;
    for k in 0..15 {
        let i = k * w;
        let j = i + w;
        dpcch_check::check(format, k, &xs[i..j], i as u16)?;
    }
    Ok(())
}

// The fields of each slot into their parts of the runs.
pub(crate) fn take(format: usize, xs: &[u8], tfci: &mut [u8], fbi: &mut [u8], commands: &mut [u8])
    requires { Room format (length tfci.old) (length fbi.old) (length commands.old) (length xs.now) × Bits format xs.now }
    ensures { (tfci.new ≡ frame_tfci_in (dpcch_format format) xs.now) × (fbi.new ≡ frame_fbi_in (dpcch_format format) xs.now) × (commands.new ≡ commands_in (dpcch_format format) xs.now) }
{
    let f = dpcch::format_of(format);
    let n = f.tfci;
    let m = f.fbi;
    let w = f.slot;
    for k in 0..15 {
        let a = k * n;
        let e = a + n;
        let b = k * m;
        let c = b + m;
        let i = k * w;
        let j = i + w;
        let tpc = dpcch_read::take(format, &xs[i..j], &mut tfci[a..e], &mut fbi[b..c]);
        commands[k] = tpc as u8;
    }
}
