// One slot of the downlink DPCH, mapped: its fields are checked, and then written by `slot_put` (rule, promises and theorems are those of the crate `slot`):
// docs/RULES.md, 'DPCH slot'; TS 25.211, 5.3.2.
#![tactic(auto)]

ghost use Rattle.std.specs.List.{position};
ghost use Rattle.std.specs.Prelude.{◌≡◌, get_or};
ghost use Rattle.run.specs.Answers.{verdict_of};
ghost use Rattle.slot.specs.Rule.{is_mixed};
ghost use Rattle.slot.specs.Outcome.{fields_verdict, map_verdict, Map};

use run::{DTX, Reason, Refusal, refused_at, require};

// The first TFCI digit whose kind, DTX or not, is not the first one's. It is looked for where there is one.
pub fn first_mixed(s: &[u8]) -> Option<usize>
    ensures { result ≡ position (is_mixed (get_or s.now 0 0)) s.now }
{
    if slot_tfci::is_tfci(s) {
        return None;
    }
    let silent = *s.first()? == DTX;
    s.iter().position(|digit| (*digit == DTX) != silent)
}

// The checks of command, TFCI and data; each counts its places from where it stands in its run.
pub fn check_fields(
    tpc: usize,
    data: &[u8],
    tfci: &[u8],
    tpc_place: usize,
    tfci_base: u32,
    data_base: u32,
) -> Result<(), Refusal>
    ensures { verdict_of result ≡ fields_verdict tpc «data».now tfci.now tpc_place tfci_base data_base }
{
    require(tpc <= 1, Reason::Tpc, tpc_place)?;
    refused_at(tfci, scan::above(tfci, DTX), Reason::Digit, tfci_base)?;
    refused_at(tfci, first_mixed(tfci), Reason::Tfci, tfci_base)?;
    refused_at(data, scan::above(data, DTX), Reason::Digit, data_base)
}

// The checks in their order.
fn check(
    format: usize,
    slot: usize,
    tpc: usize,
    data: &[u8],
    tfci: &[u8],
    out_length: usize,
) -> Result<(), Refusal>
    ensures { verdict_of result ≡ map_verdict format slot tpc «data».now tfci.now out_length }
{
    slot_heads::map_head(format, slot, data.len(), tfci.len(), out_length)?;
    check_fields(tpc, data, tfci, 0, 0, 0)
}

// The slot of the fields, or the refusal and `out` as it was.
pub fn map(
    format: usize,
    slot: usize,
    tpc: usize,
    data: &[u8],
    tfci: &[u8],
    out: &mut [u8],
) -> Result<(), Refusal>
    ensures { Map format slot tpc «data».now tfci.now out.old (verdict_of result) out.new }
{
    check(format, slot, tpc, data, tfci, out.len())?;
    slot_put::put(format, slot, tpc as u8, data, tfci, out)
}
