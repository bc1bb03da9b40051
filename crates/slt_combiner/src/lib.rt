// The AICH combiner for a C host: each call is that of the crate `combiner`, with the answer packed in one number (docs/INTERFACE.md).
#![tactic(auto)]

ghost use Rattle.correlator.specs.Complexes.{cx};
ghost use Rattle.slt_combiner.specs.Outcome.{AichCombine};

use correlator::Complex;
use packed::done;

#[unsafe(no_mangle)]
pub extern "C" fn slt_aich_combine(
    h1_re: i64,
    h1_im: i64,
    h2_re: i64,
    h2_im: i64,
    received: &[i32],
    results: &mut [i64],
) -> u64
    ensures { AichCombine (cx h1_re h1_im) (cx h2_re h2_im) received.now results.old result results.new }
{
    let h1 = Complex {
        re: h1_re,
        im: h1_im,
    };
    let h2 = Complex {
        re: h2_re,
        im: h2_im,
    };
    done(combiner::combine(h1, h2, received, results))
}
