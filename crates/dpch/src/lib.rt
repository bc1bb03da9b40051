// The downlink DPCH: slot formats; its pilot bits are those of the crates `dpch_pilot` and `dpch_four`. docs/RULES.md, 'DPCH slot'; TS 25.211, 5.3.2, tables 11 and 12, and 5.3.2.1, table 14.
// The tables of the uplink's dedicated channels stand in specs/ too, so that what every layout obeys is said once.
#![tactic(auto)]

ghost use Rattle.std.specs.Prelude.{◌≡◌, leb};
ghost use Rattle.run.specs.Refusals.{format_refused};
ghost use Rattle.run.specs.Verdicts.{unless};
ghost use Rattle.run.specs.Answers.{verdict_of};
ghost use Rattle.dpch.specs.Heads.{frame_head, slot_head};
ghost use Rattle.dpch.specs.Formats.{row, no_row, format_of};

use run::{Reason, Refusal, lengths_are, require};

// The kinds of formats: the normal ones, those of frames compressed by higher layer scheduling, and those of frames compressed by a halved spreading factor.
pub const NORMAL: usize = 0;

pub const KIND_A: usize = 1;

pub const KIND_B: usize = 2;

// A row of the table: the bits of each field of a slot, and of the slot; the kind; and how many of a frame's slots are transmitted, at least and at most.
#[derive(Clone, Copy)]
pub struct Format {
    pub data1: usize,
    pub data2: usize,
    pub tpc: usize,
    pub tfci: usize,
    pub pilot: usize,
    pub slot: usize,
    pub kind: usize,
    pub fewest: usize,
    pub most: usize,
}

// The bits of each field of an uplink DPCCH slot, and of the slot.
#[derive(Clone, Copy)]
pub struct Dpcch {
    pub pilot: usize,
    pub tfci: usize,
    pub fbi: usize,
    pub tpc: usize,
    pub slot: usize,
}

// A row of the table's normal formats, in which all fifteen slots are transmitted.
fn row(data1: usize, data2: usize, tpc: usize, tfci: usize, pilot: usize, slot: usize) -> Format
    ensures { result ≡ row data1 data2 tpc tfci pilot slot }
{
    Format {
        data1,
        data2,
        tpc,
        tfci,
        pilot,
        slot,
        kind: NORMAL,
        fewest: 15,
        most: 15,
    }
}

// Where the table has no row.
fn no_row() -> Format
    ensures { result ≡ no_row }
{
    Format {
        data1: 0,
        data2: 0,
        tpc: 0,
        tfci: 0,
        pilot: 0,
        slot: 0,
        kind: NORMAL,
        fewest: 0,
        most: 0,
    }
}

// The normal format of a number, a row of zeros where there is none. A match becomes a table in read-only memory.
pub fn format_of(n: usize) -> Format
    ensures { result ≡ format_of n }
{
    match n {
        0 => row(0, 4, 2, 0, 4, 10),
        1 => row(0, 2, 2, 2, 4, 10),
        2 => row(2, 14, 2, 0, 2, 20),
        3 => row(2, 12, 2, 2, 2, 20),
        4 => row(2, 12, 2, 0, 4, 20),
        5 => row(2, 10, 2, 2, 4, 20),
        6 => row(2, 8, 2, 0, 8, 20),
        7 => row(2, 6, 2, 2, 8, 20),
        8 => row(6, 28, 2, 0, 4, 40),
        9 => row(6, 26, 2, 2, 4, 40),
        10 => row(6, 24, 2, 0, 8, 40),
        11 => row(6, 22, 2, 2, 8, 40),
        12 => row(12, 48, 4, 8, 8, 80),
        13 => row(28, 112, 4, 8, 8, 160),
        14 => row(56, 232, 8, 8, 16, 320),
        15 => row(120, 488, 8, 8, 16, 640),
        16 => row(248, 1000, 8, 8, 16, 1280),
        _ => no_row(),
    }
}

// A format of the channel's table, whose last one is `last`.
fn check_format(last: usize, format: usize) -> Result<(), Refusal>
    ensures { verdict_of result ≡ unless (leb format last) format_refused 0 }
{
    require(format <= last, Reason::Format, 0)
}

// The checks with which a call on a frame begins: the format, then the lengths of the call's runs.
pub fn check_frame_head(last: usize, format: usize, right: &[bool]) -> Result<(), Refusal>
    ensures { verdict_of result ≡ frame_head last format right.now }
{
    check_format(last, format)?;
    lengths_are(right)
}

// .. on a slot: the format, the slot's number, then the lengths.
pub fn check_slot_head(
    last: usize,
    format: usize,
    slot: usize,
    all_right: &[bool],
) -> Result<(), Refusal>
    ensures { verdict_of result ≡ slot_head last format slot all_right.now }
{
    check_format(last, format)?;
    require(slot <= 14, Reason::Slot, 0)?;
    lengths_are(all_right)
}
