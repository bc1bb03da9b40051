// The high-speed data channel, what antenna 2 sends where antenna 1's digits are known (rule, promises and theorems are those of the crate `hspdsch`):
// docs/RULES.md, 'HS-PDSCH'; TS 25.211, 5.3.1.1.1, figures 8 and 8A.
#![tactic(auto)]

ghost use Rattle.std.specs.Prelude.{◌≡◌, ◌%◌, length};
ghost use Rattle.sttd.specs.Rule.{sttd};
ghost use Rattle.hspdsch.specs.Rule.{picked, figure8_a, coded};
ghost use Rattle.hspdsch.specs.Outcome.{flip, encoded_over};

// Two blocks of QPSK, figure 8. The bar of a bit is its other value. All are read before one is written: then they are written at once.
fn encode_two_fours(input: &[u8], out: &mut [u8])
    requires { (length input.now ≡ 8) × (length out.old ≡ 8) }
    ensures { out.new ≡ sttd flip input.now }
{
    let b0 = input[0];
    let b1 = input[1];
    let b2 = input[2];
    let b3 = input[3];
    let b4 = input[4];
    let b5 = input[5];
    let b6 = input[6];
    let b7 = input[7];
    out[0] = b2 ^ 1;
    out[1] = b3;
    out[2] = b0;
    out[3] = b1 ^ 1;
    out[4] = b6 ^ 1;
    out[5] = b7;
    out[6] = b4;
    out[7] = b5 ^ 1;
}

// One block of 16QAM, figure 8A.
fn encode_eight(input: &[u8], out: &mut [u8])
    requires { (length input.now ≡ 8) × (length out.old ≡ 8) }
    ensures { out.new ≡ picked flip figure8_a input.now }
{
    let b0 = input[0];
    let b1 = input[1];
    let b2 = input[2];
    let b3 = input[3];
    let b4 = input[4];
    let b5 = input[5];
    let b6 = input[6];
    let b7 = input[7];
    out[0] = b4 ^ 1;
    out[1] = b5;
    out[2] = b6;
    out[3] = b7;
    out[4] = b0;
    out[5] = b1 ^ 1;
    out[6] = b2;
    out[7] = b3;
}

// Eight digits of a format.
fn encode_one<const FORMAT: usize>(input: &[u8], out: &mut [u8])
    requires { (length input.now ≡ 8) × (length out.old ≡ 8) }
    ensures { out.new ≡ coded flip FORMAT input.now }
{
    if FORMAT == 0 {
        encode_two_fours(input, out);
    } else {
        encode_eight(input, out);
    }
}

// Eight digits after eight. The format is a constant: so each format has a loop without a jump. The index is counted by hand: of `for k in 0..n / 8` the compiler takes
// two eights at a time and not four, which costs a fifth more.
fn encode_all<const FORMAT: usize>(input: &[u8], out: &mut [u8])
    requires { (length input.now % 8 ≡ 0) × (length out.old ≡ length input.now) }
    ensures { out.new ≡ coded flip FORMAT input.now }
{
    let mut i = 0;
    while i < input.len() {
        let e = i + 8;
        encode_one::<FORMAT>(&input[i..e], &mut out[i..e]);
        i = e;
    }
}

// What antenna 2 sends of bits. No digit is asked whether it is one: the callers know. Runs that are not of one length of whole eights are left as they were.
pub fn encode(format: usize, input: &[u8], out: &mut [u8])
    ensures { out.new ≡ encoded_over format input.now out.old }
{
    if input.len() % 8 != 0 || out.len() != input.len() {
        return;
    }
    if format == 0 {
        encode_all::<0>(input, out);
    } else {
        encode_all::<1>(input, out);
    }
}
