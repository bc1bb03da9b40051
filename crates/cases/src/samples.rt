// Samples. A level and each part of a sample are told by their bits.
use crate::question::{number, run, signed};
use crate::{answer, question};
use sample::{Sample, Setting};
use std::io;

// What stands for the sample where the call refuses.
const NOTHING: Sample = Sample {
    inphase: 0.0,
    quadrature: 0.0,
};

// The level of a pattern, which has no sign; NaN from infinity's on.
fn level(setting: &[u8], k: usize) -> f32 {
    let bits = question::read(question::piece(setting, b',', k), true);
    if bits < 2139095040 {
        return f32::from_bits(bits as u32);
    }
    let zero: f32 = 0.0;
    zero / zero
}

// `off`, `shared` with a level, or `each` with two.
fn setting(run: &[u8]) -> Setting {
    match question::count(run, b',') {
        0 => Setting::Off,
        1 => Setting::Shared(level(run, 1)),
        _ => Setting::Each(level(run, 1), level(run, 2)),
    }
}

pub(crate) fn take(rt: &impl Print, line: &[u8]) -> io::Result<()> {
    let values = run(line, 1);
    let sampled = sample::take(
        signed(values, 0),
        signed(values, 1),
        setting(run(line, 2)),
        number(line, 3),
    );
    answer::told(rt, sampled.map(|_| ()))?;
    let sample = sampled.unwrap_or(NOTHING);
    answer::text(rt, b" sample=")?;
    answer::float(rt, sample.inphase)?;
    answer::put(rt, b',')?;
    answer::float(rt, sample.quadrature)
}
