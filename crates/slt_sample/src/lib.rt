// Samples for a C host: each call is that of the crate `sample`, with the answer packed in one number (docs/INTERFACE.md).
#![tactic(auto)]

ghost use Rattle.std.specs.Prelude.{◌≡◌};
ghost use Rattle.run.specs.Answers.{verdict_of};
ghost use Rattle.run.specs.Verdicts.{Narrow};
ghost use Rattle.sample.specs.Answers.{sampled_of};
ghost use Rattle.slt_sample.specs.Outcome.{packed_sample, SampleOff, SampleShared, SampleEach};

use packed::done;
use run::Refusal;
use sample::{Sample, Setting};

// A sample for C: number and place packed, with value 0, and the two parts beside them. An enum cannot cross to C, so there is a call for each setting.
#[repr(C)]
#[derive(Clone, Copy)]
pub struct SltSample {
    pub answer: u64,
    pub inphase: f32,
    pub quadrature: f32,
}

// A refused sample is +0, +0.
fn pack_sample(sampled: Result<Sample, Refusal>) -> SltSample
    requires { Narrow (verdict_of sampled) }
    ensures { result ≡ packed_sample (sampled_of sampled) }
{
    match sampled {
        Ok(sample) => SltSample {
            answer: done(Ok(())),
            inphase: sample.inphase,
            quadrature: sample.quadrature,
        },
        Err(refusal) => SltSample {
            answer: done(Err(refusal)),
            inphase: 0.0,
            quadrature: 0.0,
        },
    }
}

#[unsafe(no_mangle)]
pub extern "C" fn slt_sample_off(i: i64, q: i64, antenna: usize) -> SltSample
    ensures { SampleOff i q antenna result }
{
    pack_sample(sample::take(i, q, Setting::Off, antenna))
}

#[unsafe(no_mangle)]
pub extern "C" fn slt_sample_shared(i: i64, q: i64, level: f32, antenna: usize) -> SltSample
    ensures { SampleShared i q level antenna result }
{
    pack_sample(sample::take(i, q, Setting::Shared(level), antenna))
}

#[unsafe(no_mangle)]
pub extern "C" fn slt_sample_each(
    i: i64,
    q: i64,
    first: f32,
    second: f32,
    antenna: usize,
) -> SltSample
    ensures { SampleEach i q first second antenna result }
{
    pack_sample(sample::take(i, q, Setting::Each(first, second), antenna))
}
