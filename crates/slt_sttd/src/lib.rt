// STTD for a C host: each call is that of the crates `sttd_digits` and `sttd_values`, with the answer packed in one number (docs/INTERFACE.md).
#![tactic(auto)]

ghost use Rattle.slt_sttd.specs.Outcome.{SttdDigits, SttdValues};

use packed::done;
use run::{Reason, Refusal};

// A place has 32 bits in a packed answer: a longer run is refused before any digit is looked at.
#[unsafe(no_mangle)]
pub extern "C" fn slt_sttd_digits(input: &[u8], out: &mut [u8]) -> u64
    ensures { SttdDigits input.now out.old result out.new }
{
    if 4294967295 < input.len() {
        return done(Err(Refusal {
            reason: Reason::Length,
            place: 0,
        }));
    }
    done(sttd_digits::digits(input, out))
}

#[unsafe(no_mangle)]
pub extern "C" fn slt_sttd_values(input: &[i32], out: &mut [i32]) -> u64
    ensures { SttdValues input.now out.old result out.new }
{
    done(sttd_values::values(input, out))
}
