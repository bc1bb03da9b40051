// The high-speed data channel on two antennas, read (rule, promises and theorems are those of the crate `hspdsch`): docs/RULES.md, 'HS-PDSCH'; TS 25.211, 5.3.3.13 and 5.3.1.1.1.
#![tactic(auto)]

ghost use Rattle.std.specs.List.{position, zip};
ghost use Rattle.std.specs.Prelude.{◌≡◌, ◌==◌, not, ◌%◌, ◌≤◌, length};
ghost use Rattle.run.specs.Answers.{verdict_of};
ghost use Rattle.hspdsch.specs.Rule.{size, coded};
ghost use Rattle.hspdsch.specs.Outcome.{read_head, read_body, read_verdict, Read, flip};

use dpch::check_frame_head;
use run::{Reason, Refusal, refused_at};

// The checks of the format and of the lengths.
fn check_head(
    format: usize,
    length1: usize,
    length2: usize,
    data_length: usize,
) -> Result<(), Refusal>
    ensures { verdict_of result ≡ read_head format length1 length2 data_length }
{
    let n = hspdsch::size_of(format);
    check_frame_head(1, format, &[length1 == n, length2 == n, data_length == n])
}

// Where 64 digits of antenna 2 differ from what antenna 1's give. So many stay in registers: the local run costs nothing.
fn stretch_differs(format: usize, antenna1: &[u8], antenna2: &[u8]) -> Option<usize>
    requires { (length antenna1.now ≡ 64) × (length antenna2.now ≡ 64) }
    ensures { result ≡ position (λ pair. not (pair.0 == pair.1)) (zip (coded flip format antenna1.now) antenna2.now) }
{
    let mut given = [0u8; 64];
    hspdsch_encode::encode(format, antenna1, &mut given);
    scan_diff::difference(&given, antenna2)
}

// Where antenna 2 first differs from what antenna 1 gives, stretch after stretch.
fn first_difference(format: usize, antenna1: &[u8], antenna2: &[u8]) -> Option<usize>
    requires { (length antenna1.now % 64 ≡ 0) × (length antenna2.now ≡ length antenna1.now) }
    ensures { result ≡ position (λ pair. not (pair.0 == pair.1)) (zip (coded flip format antenna1.now) antenna2.now) }
{
    for k in 0..antenna1.len() / 64 {
        let i = 64 * k;
        let e = i + 64;
        if let Some(j) = stretch_differs(format, &antenna1[i..e], &antenna2[i..e]) {
            return Some(i + j);
        }
    }
    None
}

// The checks of the digits in their order. Where antenna 1 has bits and antenna 2 is what they give, antenna 2 has bits too.
fn check_body(format: usize, antenna1: &[u8], antenna2: &[u8]) -> Result<(), Refusal>
    requires { (format ≤ 1) × (length antenna1.now ≡ size format) × (length antenna2.now ≡ size format) }
    ensures { verdict_of result ≡ read_body format antenna1.now antenna2.now }
{
    refused_at(antenna1, scan::above(antenna1, 1), Reason::Digit, 0)?;
    let n = antenna1.len();
    match first_difference(format, antenna1, antenna2) {
        None => Ok(()),
        Some(m) => match scan::above(antenna2, 1) {
            None => Err(Refusal {
                reason: Reason::Frame,
                place: n + m,
            }),
            Some(i) => Err(Refusal {
                reason: Reason::Digit,
                place: n + i,
            }),
        },
    }
}

// The checks in their order.
fn check(format: usize, antenna1: &[u8], antenna2: &[u8], data_length: usize) -> Result<(), Refusal>
    ensures { verdict_of result ≡ read_verdict format antenna1.now antenna2.now data_length }
{
    check_head(format, antenna1.len(), antenna2.len(), data_length)?;
    check_body(format, antenna1, antenna2)
}

// The data of both antennas' subframes, or the refusal and the data as it was.
pub fn read(format: usize, antenna1: &[u8], antenna2: &[u8], data: &mut [u8]) -> Result<(), Refusal>
    ensures { Read format antenna1.now antenna2.now «data».old (verdict_of result) «data».new }
{
    check(format, antenna1, antenna2, data.len())?;
    write::copy(data, antenna1);
    Ok(())
}
