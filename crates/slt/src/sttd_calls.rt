// STTD: each call is that of the crate `slt_sttd`, with the same promise.

ghost use Rattle.slt_sttd.specs.Outcome.{SttdDigits, SttdValues};

#[unsafe(no_mangle)]
pub extern "C" fn slt_sttd_digits(input: &[u8], out: &mut [u8]) -> u64
    ensures { SttdDigits input.now out.old result out.new }
{
    slt_sttd::slt_sttd_digits(input, out)
}

#[unsafe(no_mangle)]
pub extern "C" fn slt_sttd_values(input: &[i32], out: &mut [i32]) -> u64
    ensures { SttdValues input.now out.old result out.new }
{
    slt_sttd::slt_sttd_values(input, out)
}
