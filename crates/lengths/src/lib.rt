// How long each run is that a mapper is lent: docs/RULES.md, 'Lengths of runs'. Runs are counted in the order in which the mapper tells refusal 3 of them, from 0 on.
#![tactic(auto)]

ghost use Rattle.std.specs.Prelude.{[], ◌∷◌, ◌≤◌, ◌*◌, replicate};
ghost use Rattle.run.specs.Verdicts.{done};
ghost use Rattle.dpch.specs.Compressed.{format_in};
ghost use Rattle.dpch.specs.Heads.{frame_head};
ghost use Rattle.compressed.specs.Outcome.{gap_head};
ghost use Rattle.lengths.specs.Rule.{slot_lengths_of, frame_lengths_of, compressed_lengths_of, dpdch_lengths_of, dpcch_lengths_of, dpcch_frame_lengths_of, hspdsch_lengths_of};
ghost use Rattle.lengths.specs.Length.{length_of};
ghost use Rattle.lengths.specs.Outcome.{Told};

use compressed::check_gap_head;
use dpch::check_frame_head;
use run::{Reason, Refusal, require};

// The length of one of these runs.
fn tell(run: usize, lengths: &[usize]) -> Result<usize, Refusal>
    ensures { Told done lengths.now run (length_of result) }
{
    require(run < lengths.len(), Reason::Range, 0)?;
    Ok(lengths[run])
}

// .. of so many runs that are alike: no list is looked into.
fn tell_alike(run: usize, count: usize, length: usize) -> Result<usize, Refusal>
    ensures { Told done (replicate count length) run (length_of result) }
{
    require(run < count, Reason::Range, 0)?;
    Ok(length)
}

// .. of a frame of which so many slots are transmitted: three of a slot's runs, the third of all fifteen slots, and the commands.
fn tell_frame(sent: usize, run: usize, a: usize, b: usize, c: usize) -> Result<usize, Refusal>
    requires { (sent ≤ 15) × (a ≤ 1280) × (b ≤ 1280) × (c ≤ 1280) }
    ensures { Told done (sent * a ∷ sent * b ∷ 15 * c ∷ sent ∷ []) run (length_of result) }
{
    tell(run, &[sent * a, sent * b, 15 * c, sent])
}

// A slot of the downlink DPCH, on either antenna.
pub fn of_slot(format: usize, run: usize) -> Result<usize, Refusal>
    ensures { Told (frame_head 16 format []) (slot_lengths_of format) run (length_of result) }
{
    check_frame_head(16, format, &[])?;
    let s = slot::sizes_of(format);
    tell(run, &[s.data, s.tfci, s.slot])
}

// A frame of it.
pub fn of_frame(format: usize, run: usize) -> Result<usize, Refusal>
    ensures { Told (frame_head 16 format []) (frame_lengths_of format) run (length_of result) }
{
    check_frame_head(16, format, &[])?;
    let s = slot::sizes_of(format);
    tell_frame(15, run, s.data, s.tfci, s.slot)
}

// A compressed frame of it.
pub fn of_compressed(
    format: usize,
    kind: usize,
    first: usize,
    missing: usize,
    run: usize,
) -> Result<usize, Refusal>
    ensures { Told (gap_head (format_in kind format) first missing []) (compressed_lengths_of kind format missing) run (length_of result) }
{
    let f = dpch_rows::format_in(kind, format);
    let n = compressed::transmitted(missing);
    check_gap_head(f, first, missing, &[])?;
    tell_frame(n, run, f.data1 + f.data2, f.tfci, f.slot)
}

// A slot of the uplink DPDCH.
pub fn of_dpdch(format: usize, run: usize) -> Result<usize, Refusal>
    ensures { Told (frame_head 6 format []) (dpdch_lengths_of 1 format) run (length_of result) }
{
    check_frame_head(6, format, &[])?;
    let n = dpdch::size_of(format);
    tell_alike(run, 2, n)
}

// A frame of it.
pub fn of_dpdch_frame(format: usize, run: usize) -> Result<usize, Refusal>
    ensures { Told (frame_head 6 format []) (dpdch_lengths_of 15 format) run (length_of result) }
{
    check_frame_head(6, format, &[])?;
    let frame = 15 * dpdch::size_of(format);
    tell_alike(run, 2, frame)
}

// A slot of the uplink DPCCH.
pub fn of_dpcch(format: usize, run: usize) -> Result<usize, Refusal>
    ensures { Told (frame_head 3 format []) (dpcch_lengths_of format) run (length_of result) }
{
    check_frame_head(3, format, &[])?;
    let f = dpcch::format_of(format);
    tell(run, &[f.tfci, f.fbi, f.slot])
}

// A frame of it.
pub fn of_dpcch_frame(format: usize, run: usize) -> Result<usize, Refusal>
    ensures { Told (frame_head 3 format []) (dpcch_frame_lengths_of format) run (length_of result) }
{
    check_frame_head(3, format, &[])?;
    let f = dpcch::format_of(format);
    tell_frame(15, run, f.tfci, f.fbi, f.slot)
}

// A subframe of the HS-PDSCH.
pub fn of_hspdsch(format: usize, run: usize) -> Result<usize, Refusal>
    ensures { Told (frame_head 1 format []) (hspdsch_lengths_of format) run (length_of result) }
{
    check_frame_head(1, format, &[])?;
    let n = hspdsch::size_of(format);
    tell(run, &[n, n, n])
}
