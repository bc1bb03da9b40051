// The AICH combiner's numbers: docs/RULES.md, 'Combiner'. Gains of 16 bits and parts of 32 cannot overflow sums of 64, so nothing is asked of either.
#![tactic(auto)]

ghost use Rattle.std.specs.Prelude.{◌≡◌, ◌++◌, ◌<◌, length, ◌+ℤ◌};
ghost use Rattle.signature.specs.Folding.{sums, differences, folds};
ghost use Rattle.correlator.specs.Complexes.{cx, ◌⊞◌, ◌⊟◌, ◌⊠◌, conj};
ghost use Rattle.correlator.specs.Rule.{symbol, t1, t2, combined, numbers_of};
ghost use Rattle.correlator.specs.Method.{Small, Parts, pair_sums, depth, Room, Halves};

use std::ops::{Add, Mul, Sub};

// A complex whole number.
#[derive(Clone, Copy)]
pub struct Complex {
    pub re: i64,
    pub im: i64,
}

// A gain of two parts of 16 bits.
#[derive(Clone, Copy)]
pub struct Gain {
    pub re: i16,
    pub im: i16,
}

impl From<Gain> for Complex {
    ghost from_gives = { λ h z. z ≡ cx h.re h.im };

    fn from(h: Gain) -> Complex {
        Complex {
            re: i64::from(h.re),
            im: i64::from(h.im),
        }
    }
}

// A complex number in a sum of products. The operators take what cannot overflow, so they are this private type's: nothing public has a bound.
#[derive(Clone, Copy)]
struct Number(Complex);

// A gain times a symbol.
impl Mul for Number {
    type Output = Number;

    ghost can_mul = { λ h z. Small 32768 h.0 × Small 2147483648 z.0 };

    ghost mul_gives = { λ h z r. r.0 ≡ h.0 ⊠ z.0 };

    fn mul(self, z: Number) -> Number {
        Number(Complex {
            re: self.0.re * z.0.re - self.0.im * z.0.im,
            im: self.0.re * z.0.im + self.0.im * z.0.re,
        })
    }
}

impl Add for Number {
    type Output = Number;

    ghost can_add = { λ z w. Small 140737488355328 z.0 × Small 140737488355328 w.0 };

    ghost add_gives = { λ z w r. r.0 ≡ z.0 ⊞ w.0 };

    fn add(self, w: Number) -> Number {
        Number(Complex {
            re: self.0.re + w.0.re,
            im: self.0.im + w.0.im,
        })
    }
}

impl Sub for Number {
    type Output = Number;

    ghost can_sub = { λ z w. Small 140737488355328 z.0 × Small 140737488355328 w.0 };

    ghost sub_gives = { λ z w r. r.0 ≡ z.0 ⊟ w.0 };

    fn sub(self, w: Number) -> Number {
        Number(Complex {
            re: self.0.re - w.0.re,
            im: self.0.im - w.0.im,
        })
    }
}

fn conj(z: Complex) -> Complex
    requires { Small 2147483648 z }
    ensures { result ≡ conj z }
{
    let im = 0 - z.im;
    Complex { re: z.re, im }
}

// T1 of a pair.
fn first_of(h1: Complex, h2: Complex, r1: Complex, r2: Complex) -> Complex
    requires { Small 32768 h1 × Small 32768 h2 × Small 2147483648 r1 × Small 2147483648 r2 }
    ensures { result ≡ t1 h1 h2 r1 r2 }
{
    let t = Number(conj(h1)) * Number(r1) + Number(h2) * Number(conj(r2));
    t.0
}

// T2 of a pair.
fn second_of(h1: Complex, h2: Complex, r1: Complex, r2: Complex) -> Complex
    requires { Small 32768 h1 × Small 32768 h2 × Small 2147483648 r1 × Small 2147483648 r2 }
    ensures { result ≡ t2 h1 h2 r1 r2 }
{
    let t = Number(conj(h1)) * Number(r2) - Number(h2) * Number(conj(r1));
    t.0
}

// Symbol k of a run of real and imaginary parts in turn.
fn symbol(s: &[i32], k: usize) -> Complex
    requires { (length s.now ≡ 32) × (k < 16) }
    ensures { result ≡ symbol s.now k }
{
    Complex {
        re: i64::from(s[2 * k]),
        im: i64::from(s[2 * k + 1]),
    }
}

// The two components of a symbol of T are neighbours, with the same sign in every signature: they are added once.
fn neighbours(t: Complex) -> i64
    requires { Small 281474976710656 t }
    ensures { result ≡ t.re +ℤ t.im }
{
    t.re + t.im
}

// The sums of neighbours, two symbols at a time.
fn pair_sums(h1: Complex, h2: Complex, received: &[i32]) -> [i64; 16]
    requires { Small 32768 h1 × Small 32768 h2 × Parts 2147483648 received.now }
    ensures { result ≡ pair_sums (combined h1 h2 received.now) }
{
    let mut sums = [0i64; 16];
    for m in 0..8 {
        let r1 = symbol(received, 2 * m);
        let r2 = symbol(received, 2 * m + 1);
        let first = neighbours(first_of(h1, h2, r1, r2));
        let second = neighbours(second_of(h1, h2, r1, r2));
        sums[2 * m] = first;
        sums[2 * m + 1] = second;
    }
    sums
}

// Entries k and h + k become their sum and their difference.
fn level(s: &mut [i64], h: usize)
    requires { Halves h s.old }
    ensures { s.new ≡ sums h s.old ++ differences h s.old }
{
    for k in 0..h {
        let x = s[k];
        let y = s[h + k];
        s[k] = x + y;
        s[h + k] = x - y;
    }
}

// Halves the run and folds each half again, until a half is one number: a call for each of those would be half of all calls. Calls are nested as deep as the
// logarithm of the length.
fn fold(s: &mut [i64])
    requires { Room s.old }
    ensures { s.new ≡ folds (depth s.old) s.old }
{
    let h = s.len() / 2;
    if 0 < h {
        level(s, h);
        if 1 < h {
            fold(&mut s[..h]);
            fold(&mut s[h..h + h]);
        }
    }
}

// The number of each signature, whatever is received.
pub fn numbers(h1: Gain, h2: Gain, received: [i32; 32]) -> [i64; 16]
    ensures { result ≡ numbers_of (cx h1.re h1.im) (cx h2.re h2.im) received }
{
    let mut sums = pair_sums(Complex::from(h1), Complex::from(h2), &received);
    fold(&mut sums);
    sums
}
