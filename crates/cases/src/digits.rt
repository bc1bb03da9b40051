// The calls on runs of digits.
use crate::question::{DIGITS, number, run};
use crate::{answer, question, uplink};
use pich::{Indicator, Pi};
use run::Refusal;
use std::io;

// The calls that are lent one run.
#[derive(Clone, Copy)]
pub(crate) enum One {
    SlotMap,
    AntennaMap,
    FrameMap,
    PccpchRead,
    PichMap,
    PichRead,
    DpdchMap,
    DpdchRead,
    DpdchFrameMap,
    DpdchFrameRead,
    DpcchMap,
    DpcchFrameMap,
    CompressedMap,
    Sttd,
}

// .. two ..
#[derive(Clone, Copy)]
pub(crate) enum Two {
    SlotRead,
    AntennasRead,
    PccpchMap,
    DpcchRead,
}

// .. and three.
#[derive(Clone, Copy)]
pub(crate) enum Three {
    FrameRead,
    DpcchFrameRead,
    CompressedRead,
}

fn slot_map(line: &[u8], out: &mut [u8]) -> Result<(), Refusal> {
    slot_map::map(
        number(line, 1),
        number(line, 2),
        number(line, 3),
        run(line, 5),
        run(line, 4),
        out,
    )
}

fn antenna_map(line: &[u8], out: &mut [u8]) -> Result<(), Refusal> {
    antenna_map::map(
        number(line, 1),
        number(line, 2),
        number(line, 3),
        number(line, 4),
        run(line, 6),
        run(line, 5),
        out,
    )
}

fn frame_map(line: &[u8], out: &mut [u8]) -> Result<(), Refusal> {
    frame_map::map(
        number(line, 1),
        run(line, 4),
        run(line, 3),
        out,
        run(line, 2),
    )
}

fn compressed_map(line: &[u8], out: &mut [u8]) -> Result<(), Refusal> {
    compressed_map::map(
        number(line, 1),
        number(line, 2),
        number(line, 3),
        number(line, 4),
        run(line, 7),
        run(line, 6),
        out,
        run(line, 5),
    )
}

fn write_one(call: One, line: &[u8], out: &mut [u8]) -> Result<(), Refusal> {
    match call {
        One::SlotMap => slot_map(line, out),
        One::AntennaMap => antenna_map(line, out),
        One::FrameMap => frame_map(line, out),
        One::PccpchRead => pccpch_read::read(run(line, 1), run(line, 2), out),
        One::PichMap => pich_map::map(number(line, 1), run(line, 2), out),
        One::PichRead => pich_read::read(number(line, 1), run(line, 2), out),
        One::DpdchMap => dpdch::map(number(line, 1), run(line, 2), out),
        One::DpdchRead => dpdch::read(number(line, 1), run(line, 2), out),
        One::DpdchFrameMap => dpdch::frame_map(number(line, 1), run(line, 2), out),
        One::DpdchFrameRead => dpdch::frame_read(number(line, 1), run(line, 2), out),
        One::DpcchMap => uplink::map(line, out),
        One::DpcchFrameMap => uplink::frame_map(line, out),
        One::CompressedMap => compressed_map(line, out),
        One::Sttd => sttd_digits::digits(run(line, 1), out),
    }
}

fn slot_read(line: &[u8], tfci: &mut [u8], data: &mut [u8]) -> Result<usize, Refusal> {
    slot_read::read(number(line, 1), number(line, 2), run(line, 3), data, tfci)
}

fn antennas_read(line: &[u8], tfci: &mut [u8], data: &mut [u8]) -> Result<usize, Refusal> {
    antenna_read::read(
        number(line, 1),
        number(line, 2),
        run(line, 3),
        run(line, 4),
        data,
        tfci,
    )
}

// The runs are the question's last ones, in their order.
fn write_two(
    rt: &impl Print,
    call: Two,
    line: &[u8],
    first: &mut [u8],
    second: &mut [u8],
) -> io::Result<()> {
    match call {
        Two::SlotRead => answer::value(rt, slot_read(line, first, second), b" TPC="),
        Two::AntennasRead => answer::value(rt, antennas_read(line, first, second), b" TPC="),
        Two::PccpchMap => answer::told(rt, pccpch::map(run(line, 1), first, second)),
        Two::DpcchRead => answer::value(rt, uplink::read(line, first, second), b" TPC="),
    }
}

fn compressed_read(
    line: &[u8],
    commands: &mut [u8],
    tfci: &mut [u8],
    data: &mut [u8],
) -> Result<(), Refusal> {
    compressed_read::read(
        number(line, 1),
        number(line, 2),
        number(line, 3),
        number(line, 4),
        run(line, 5),
        data,
        tfci,
        commands,
    )
}

fn write_three(
    call: Three,
    line: &[u8],
    first: &mut [u8],
    second: &mut [u8],
    third: &mut [u8],
) -> Result<(), Refusal> {
    match call {
        Three::FrameRead => {
            frame_read::read(number(line, 1), run(line, 2), third, second, first)
        }
        Three::DpcchFrameRead => uplink::frame_read(line, first, second, third),
        Three::CompressedRead => compressed_read(line, first, second, third),
    }
}

fn tell_one(rt: &impl Print, call: One, line: &[u8], out: &mut [u8]) -> io::Result<()> {
    answer::told(rt, write_one(call, line, out))?;
    answer::run(rt, line, 0, out)
}

fn tell_two(
    rt: &impl Print,
    call: Two,
    line: &[u8],
    first: &mut [u8],
    second: &mut [u8],
) -> io::Result<()> {
    write_two(rt, call, line, first, second)?;
    answer::run(rt, line, 1, first)?;
    answer::run(rt, line, 0, second)
}

fn tell_three(
    rt: &impl Print,
    call: Three,
    line: &[u8],
    first: &mut [u8],
    second: &mut [u8],
    third: &mut [u8],
) -> io::Result<()> {
    answer::told(rt, write_three(call, line, first, second, third))?;
    answer::run(rt, line, 2, first)?;
    answer::run(rt, line, 1, second)?;
    answer::run(rt, line, 0, third)
}

// Each lends copies of the question's last runs.
pub(crate) fn lend_one(rt: &impl Print, call: One, line: &[u8]) -> io::Result<()> {
    let mut out = [0; DIGITS];
    let n = question::lend(line, 0, &mut out);
    tell_one(rt, call, line, &mut out[..n])
}

pub(crate) fn lend_two(rt: &impl Print, call: Two, line: &[u8]) -> io::Result<()> {
    let mut first = [0; DIGITS];
    let n = question::lend(line, 1, &mut first);
    let mut second = [0; DIGITS];
    let m = question::lend(line, 0, &mut second);
    tell_two(rt, call, line, &mut first[..n], &mut second[..m])
}

pub(crate) fn lend_three(rt: &impl Print, call: Three, line: &[u8]) -> io::Result<()> {
    let mut first = [0; DIGITS];
    let n = question::lend(line, 2, &mut first);
    let mut second = [0; DIGITS];
    let m = question::lend(line, 1, &mut second);
    let mut third = [0; DIGITS];
    let l = question::lend(line, 0, &mut third);
    tell_three(
        rt,
        call,
        line,
        &mut first[..n],
        &mut second[..m],
        &mut third[..l],
    )
}

pub(crate) fn q(rt: &impl Print, line: &[u8]) -> io::Result<()> {
    let q = pich::q(number(line, 1), Pi(number(line, 3)), number(line, 2));
    answer::value(rt, q.map(|Indicator(q)| q), b" q=")
}
