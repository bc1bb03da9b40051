// Samples: each call is that of the crate `slt_sample`, with the same promise.

ghost use Rattle.slt_sample.specs.Outcome.{SampleOff, SampleShared, SampleEach};

use slt_sample::SltSample;

#[unsafe(no_mangle)]
pub extern "C" fn slt_sample_off(i: i64, q: i64, antenna: usize) -> SltSample
    ensures { SampleOff i q antenna result }
{
    slt_sample::slt_sample_off(i, q, antenna)
}

#[unsafe(no_mangle)]
pub extern "C" fn slt_sample_shared(i: i64, q: i64, level: f32, antenna: usize) -> SltSample
    ensures { SampleShared i q level antenna result }
{
    slt_sample::slt_sample_shared(i, q, level, antenna)
}

#[unsafe(no_mangle)]
pub extern "C" fn slt_sample_each(
    i: i64,
    q: i64,
    first: f32,
    second: f32,
    antenna: usize,
) -> SltSample
    ensures { SampleEach i q first second antenna result }
{
    slt_sample::slt_sample_each(i, q, first, second, antenna)
}
