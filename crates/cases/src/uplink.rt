// The calls of the uplink's control channel.
use crate::question::{number, run};
use run::Refusal;

pub(crate) fn map(line: &[u8], out: &mut [u8]) -> Result<(), Refusal> {
    dpcch_map::map(
        number(line, 1),
        number(line, 2),
        number(line, 3),
        run(line, 4),
        run(line, 5),
        out,
    )
}

pub(crate) fn frame_map(line: &[u8], out: &mut [u8]) -> Result<(), Refusal> {
    dpcch_frame_map::map(
        number(line, 1),
        run(line, 3),
        run(line, 4),
        out,
        run(line, 2),
    )
}

pub(crate) fn read(line: &[u8], tfci: &mut [u8], fbi: &mut [u8]) -> Result<usize, Refusal> {
    dpcch_read::read(number(line, 1), number(line, 2), run(line, 3), tfci, fbi)
}

pub(crate) fn frame_read(
    line: &[u8],
    commands: &mut [u8],
    tfci: &mut [u8],
    fbi: &mut [u8],
) -> Result<(), Refusal> {
    dpcch_frame_read::read(number(line, 1), run(line, 2), tfci, fbi, commands)
}
