// One slot of the uplink DPCCH, mapped: its fields are checked, and then written by `dpcch_put` (rule, promises and theorems are those of the crate `dpcch`):
// docs/RULES.md, 'Uplink DPCCH'; TS 25.211, 5.2.1.1.
#![tactic(auto)]

ghost use Rattle.std.specs.Prelude.{◌≡◌, true, length};
ghost use Rattle.run.specs.Answers.{verdict_of};
ghost use Rattle.run.specs.First.{Every, at_most};
ghost use Rattle.run.specs.Verdicts.{done};
ghost use Rattle.dpcch.specs.Outcome.{fields_verdict, map_verdict, Map};

use dpdch::are_few_bits;
use run::{Reason, Refusal, refused_at, require};

// The checks of command, TFCI and FBI; each counts its places from where it stands in its run.
pub fn check_fields(
    tpc: usize,
    tfci: &[u8],
    fbi: &[u8],
    tpc_place: usize,
    tfci_base: u32,
    fbi_base: u32,
) -> Result<(), Refusal>
    ensures { verdict_of result ≡ fields_verdict tpc tfci.now fbi.now tpc_place tfci_base fbi_base }
{
    require(tpc <= 1, Reason::Tpc, tpc_place)?;
    refused_at(tfci, scan::above(tfci, 1), Reason::Digit, tfci_base)?;
    refused_at(fbi, scan::above(fbi, 1), Reason::Digit, fbi_base)
}

// Whether these are at most two digits, and bits. A field of a slot has no more.
fn are_bits(s: &[u8]) -> bool
    ensures { result ≡ true → Every (at_most 1 s.now) (length s.now) }
{
    s.is_empty() || are_few_bits::<1>(s) || are_few_bits::<2>(s)
}

// Whether the fields of a slot are good at first sight.
fn are_good(tpc: usize, tfci: &[u8], fbi: &[u8]) -> bool
    ensures { result ≡ true → fields_verdict tpc tfci.now fbi.now 0 0 0 ≡ done }
{
    tpc <= 1 && are_bits(tfci) && are_bits(fbi)
}

fn check(
    format: usize,
    slot: usize,
    tpc: usize,
    tfci: &[u8],
    fbi: &[u8],
    out_length: usize,
) -> Result<(), Refusal>
    ensures { verdict_of result ≡ map_verdict format slot tpc tfci.now fbi.now out_length }
{
    dpcch::check_map_head(format, slot, tfci.len(), fbi.len(), out_length)?;
    if are_good(tpc, tfci, fbi) {
        return Ok(());
    }
    check_fields(tpc, tfci, fbi, 0, 0, 0)
}

// The slot of the fields, or the refusal and `out` as it was.
pub fn map(
    format: usize,
    slot: usize,
    tpc: usize,
    tfci: &[u8],
    fbi: &[u8],
    out: &mut [u8],
) -> Result<(), Refusal>
    ensures { Map format slot tpc tfci.now fbi.now out.old (verdict_of result) out.new }
{
    check(format, slot, tpc, tfci, fbi, out.len())?;
    dpcch_put::put(format, slot, tpc as u8, tfci, fbi, out);
    Ok(())
}
