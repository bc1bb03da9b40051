// The lengths of a mapper's runs for a C host: each call is that of the crate `lengths`, with the answer packed in one number, the length as its value (docs/INTERFACE.md).
#![tactic(auto)]

ghost use Rattle.std.specs.Prelude.{[]};
ghost use Rattle.dpch.specs.Compressed.{format_in};
ghost use Rattle.dpch.specs.Heads.{frame_head};
ghost use Rattle.compressed.specs.Outcome.{gap_head};
ghost use Rattle.lengths.specs.Rule.{slot_lengths_of, frame_lengths_of, compressed_lengths_of, dpdch_lengths_of, dpcch_lengths_of, dpcch_frame_lengths_of, hspdsch_lengths_of};
ghost use Rattle.slt_lengths.specs.Outcome.{LengthTold};

use packed::answer;

#[unsafe(no_mangle)]
pub extern "C" fn slt_slot_lengths(format: usize, run: usize) -> u64
    ensures { LengthTold (frame_head 16 format []) (slot_lengths_of format) run result }
{
    answer(lengths::of_slot(format, run))
}

#[unsafe(no_mangle)]
pub extern "C" fn slt_frame_lengths(format: usize, run: usize) -> u64
    ensures { LengthTold (frame_head 16 format []) (frame_lengths_of format) run result }
{
    answer(lengths::of_frame(format, run))
}

#[unsafe(no_mangle)]
pub extern "C" fn slt_compressed_lengths(
    format: usize,
    kind: usize,
    first: usize,
    missing: usize,
    run: usize,
) -> u64
    ensures { LengthTold (gap_head (format_in kind format) first missing []) (compressed_lengths_of kind format missing) run result }
{
    answer(lengths::of_compressed(format, kind, first, missing, run))
}

#[unsafe(no_mangle)]
pub extern "C" fn slt_dpdch_lengths(format: usize, run: usize) -> u64
    ensures { LengthTold (frame_head 6 format []) (dpdch_lengths_of 1 format) run result }
{
    answer(lengths::of_dpdch(format, run))
}

#[unsafe(no_mangle)]
pub extern "C" fn slt_dpdch_frame_lengths(format: usize, run: usize) -> u64
    ensures { LengthTold (frame_head 6 format []) (dpdch_lengths_of 15 format) run result }
{
    answer(lengths::of_dpdch_frame(format, run))
}

#[unsafe(no_mangle)]
pub extern "C" fn slt_dpcch_lengths(format: usize, run: usize) -> u64
    ensures { LengthTold (frame_head 3 format []) (dpcch_lengths_of format) run result }
{
    answer(lengths::of_dpcch(format, run))
}

#[unsafe(no_mangle)]
pub extern "C" fn slt_dpcch_frame_lengths(format: usize, run: usize) -> u64
    ensures { LengthTold (frame_head 3 format []) (dpcch_frame_lengths_of format) run result }
{
    answer(lengths::of_dpcch_frame(format, run))
}

#[unsafe(no_mangle)]
pub extern "C" fn slt_hspdsch_lengths(format: usize, run: usize) -> u64
    ensures { LengthTold (frame_head 1 format []) (hspdsch_lengths_of format) run result }
{
    answer(lengths::of_hspdsch(format, run))
}
