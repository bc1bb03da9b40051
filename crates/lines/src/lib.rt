// The lines that are printed: of a job file's header, of a record of each kind, of a refusal. docs/RULES.md, 'Job file and program'.
#![tactic(auto)]

ghost use Rattle.std.specs.Prelude.{◌≡◌, ◌≤◌, ◌<◌, pos, negsuc, length};
ghost use Rattle.run.specs.Answers.{verdict_of};
ghost use Rattle.run.specs.First.{Every};
ghost use Rattle.run.specs.Ranges.{in_range};
ghost use Rattle.run.specs.Refusals.{length_refused};
ghost use Rattle.run.specs.Verdicts.{or_else, refused, unless};
ghost use Rattle.lines.specs.Rule.{indicator_of, indicators_of, head_line, aich_line, pich_line, dpch_line, refusal_line};
ghost use Rattle.lines.specs.Text.{Wrote};
ghost use Rattle.lines.specs.Outcome.{room, is_whole, Writes, Head, Record, Tell};
ghost use Rattle.lines.specs.Answers.{told_of};
ghost use Rattle.lines.specs.Ready.{Whole, Roomy, AichRecord, PichRecord, DpchRecord, MapsSlot};

use kinds::Kind;
use run::{Reason, Refusal, require};
use text::Text;

mod text;

// The bytes of the longest line, which is a DPCH record's of format 16.
pub const LINE: usize = 1292;

// The header's.
fn head_line(version: u8, count: u16, line: &mut [u8]) -> usize
    requires { Roomy line.old }
    ensures { Wrote 0 (head_line version count) line.old result line.new }
{
    let mut text = Text { line, end: 0 };
    text.word(b"SLT ");
    text.number(version as usize, b' ');
    text.number(count as usize, b'\n');
    text.end
}

// A refusal's.
fn refusal_line(number: usize, place: usize, line: &mut [u8]) -> usize
    requires { Roomy line.old }
    ensures { Wrote 0 (refusal_line (refused number place)) line.old result line.new }
{
    let mut text = Text { line, end: 0 };
    text.word(b"refused ");
    text.number(number, b' ');
    text.number(place, b'\n');
    text.end
}

fn aich_line(values: &[i32], line: &mut [u8]) -> usize
    requires { Every (in_range (negsuc 15) (pos 16) values.now) (length values.now) × (length values.now ≡ 32) × Roomy line.old }
    ensures { Wrote 0 (aich_line values.now) line.old result line.new }
{
    let mut text = Text { line, end: 0 };
    text.word(b"AICH");
    text.values(values);
    text.byte(b'\n');
    text.end
}

fn pich_line(np: usize, frame: &[u8], line: &mut [u8]) -> usize
    requires { (np < 256) × (length frame.now ≡ 300) × Roomy line.old }
    ensures { Wrote 0 (pich_line np frame.now) line.old result line.new }
{
    let mut text = Text { line, end: 0 };
    text.word(b"PICH ");
    text.number(np, b' ');
    text.row(frame);
    text.end
}

fn dpch_line(format: usize, slot: usize, digits: &[u8], line: &mut [u8]) -> usize
    requires { (format ≤ 16) × (slot ≤ 14) × (length digits.now ≤ 1280) × Roomy line.old }
    ensures { Wrote 0 (dpch_line format slot digits.now) line.old result line.new }
{
    let mut text = Text { line, end: 0 };
    text.word(b"DPCH ");
    text.number(format, b' ');
    text.number(slot, b' ');
    text.row(digits);
    text.end
}

// 0, 1, 2 for 0, +1, -1; the mapper refuses any other.
fn indicator_of(byte: u8) -> i32
    ensures { result ≡ indicator_of byte }
{
    if byte == 2 { -1 } else { byte as i32 }
}

fn indicators_of(r: &[u8]) -> [i32; 16]
    requires { length r.now ≡ 17 }
    ensures { result ≡ indicators_of r.now }
{
    let mut indicators = [0i32; 16];
    for s in 0..16 {
        indicators[s] = indicator_of(r[1 + s]);
    }
    indicators
}

fn aich_record(r: &[u8], line: &mut [u8]) -> Result<usize, Refusal>
    requires { AichRecord r.now × Roomy line.old }
    ensures { Writes r.now line.old (told_of result) line.new }
{
    let indicators = indicators_of(r);
    let mut values = [0i32; 32];
    aich::map(&indicators, &mut values)?;
    Ok(aich_line(&values, line))
}

fn pich_record(r: &[u8], line: &mut [u8]) -> Result<usize, Refusal>
    requires { PichRecord r.now × Roomy line.old }
    ensures { Writes r.now line.old (told_of result) line.new }
{
    let np = r[1] as usize;
    let mut frame = [0u8; 300];
    pich_map::map(np, &r[2..], &mut frame)?;
    Ok(pich_line(np, &frame, line))
}

// The slot of a DPCH record's fields.
fn map_slot(r: &[u8], digits: &mut [u8]) -> Result<(), Refusal>
    requires { DpchRecord r.now }
    ensures { MapsSlot r.now digits.old (verdict_of result) digits.new }
{
    let format = r[1] as usize;
    let slot = r[2] as usize;
    let tpc = r[3] as usize;
    let f = dpch::format_of(format);
    let split = 4 + f.tfci;
    slot_map::map(format, slot, tpc, &r[split..], &r[4..split], digits)
}

fn dpch_record(r: &[u8], line: &mut [u8]) -> Result<usize, Refusal>
    requires { DpchRecord r.now × Roomy line.old }
    ensures { Writes r.now line.old (told_of result) line.new }
{
    let format = r[1] as usize;
    let f = dpch::format_of(format);
    let size = f.slot;
    let mut digits = [0u8; 1280];
    map_slot(r, &mut digits[0..size])?;
    Ok(dpch_line(format, r[2] as usize, &digits[0..size], line))
}

// A whole record's, or the mapper's refusal and the line as it was.
fn record_line(r: &[u8], line: &mut [u8]) -> Result<usize, Refusal>
    requires { Whole r.now × Roomy line.old }
    ensures { Writes r.now line.old (told_of result) line.new }
{
    let named = Kind::try_from(r[0]);
    let kind = named.unwrap_or(Kind::Dpch);
    match kind {
        Kind::Aich => aich_record(r, line),
        Kind::Pich => pich_record(r, line),
        Kind::Dpch => dpch_record(r, line),
    }
}

// Whether all bytes that the first two ask for are there, and none behind them. No record has fewer than two.
fn is_whole(r: &[u8]) -> bool
    ensures { result ≡ is_whole r.now }
{
    if r.len() < 2 {
        return false;
    }
    let s = kinds::shape_of(r[0], r[1]);
    s.known && s.second.is_ok() && r.len() == s.size
}

// A record whose bytes are all there, and a line with room.
fn check(r: &[u8], line_length: usize) -> Result<(), Refusal>
    ensures { verdict_of result ≡ or_else (unless (is_whole r.now) length_refused 0) (room 1 line_length) }
{
    require(is_whole(r), Reason::Length, 0)?;
    require(LINE <= line_length, Reason::Length, 1)
}

// The line of a record, of which is answered how long it is; or the refusal, and the line as it was.
pub fn record(r: &[u8], line: &mut [u8]) -> Result<usize, Refusal>
    ensures { Record r.now line.old (told_of result) line.new }
{
    check(r, line.len())?;
    record_line(r, line)
}

// The line of a header with this version and this number of records.
pub fn head(version: u8, count: u16, line: &mut [u8]) -> Result<usize, Refusal>
    ensures { Head version count line.old (told_of result) line.new }
{
    require(LINE <= line.len(), Reason::Length, 0)?;
    Ok(head_line(version, count, line))
}

// The line of a refusal, of whatever number and place.
pub fn tell(number: usize, place: usize, line: &mut [u8]) -> Result<usize, Refusal>
    ensures { Tell (refused number place) line.old (told_of result) line.new }
{
    require(LINE <= line.len(), Reason::Length, 0)?;
    Ok(refusal_line(number, place, line))
}
