// The acquisition indicator channel: docs/RULES.md, 'AICH'; TS 25.211, 5.3.3.7.
#![tactic(auto)]

ghost use Rattle.std.specs.Prelude.{◌≡◌, ◌<◌, length, get_or, pos, negsuc};
ghost use Rattle.run.specs.Answers.{verdict_of};
ghost use Rattle.run.specs.First.{all};
ghost use Rattle.run.specs.Ranges.{between};
ghost use Rattle.whole.specs.Bound.{Bounded};
ghost use Rattle.aich.specs.Rule.{values_of};
ghost use Rattle.aich.specs.Outcome.{map_verdict, Map, read_head, Read, MapAvailable, ReadAvailable};
ghost use Rattle.aich.specs.Method.{Sixteen, Summed, with_sums, fold_four, Turned, Paired, half_of, firsts, is_pair, alike, sign_of, fits16, fits_at, units_of};

use run::{Reason, Refusal, require};

mod set;

// The checks of `map` in their order.
fn check_map(indicators: &[i32], values_length: usize) -> Result<(), Refusal>
    ensures { verdict_of result ≡ map_verdict indicators.now values_length }
{
    require(indicators.len() == 16, Reason::Length, 0)?;
    require(values_length == 32, Reason::Length, 1)?;
    match range::outside(indicators, -1, 1) {
        None => Ok(()),
        Some(place) => require(false, Reason::Range, place),
    }
}

// Two foldings of four numbers.
fn fold_four(a: i32, b: i32, c: i32, d: i32) -> [i32; 4]
    requires { Bounded 64 a × Bounded 64 b × Bounded 64 c × Bounded 64 d }
    ensures { result ≡ fold_four a b c d }
{
    [
        a + b + (c + d),
        a - b + (c - d),
        a + b - (c + d),
        a - b - (c - d),
    ]
}

// Two foldings at a time, with their places turned: entry k + 4t is entry 4k + t of what two foldings give. `n` is 4: the compiler does not know it, so that it keeps the loop
// and goes four numbers at a time. They are lent: an answer with sixteen numbers in it would be copied.
fn columns(x: &[i32], n: usize, y: &mut [i32])
    requires { Sixteen 16 x.now × (n ≡ 4) × (length y.old ≡ 16) }
    ensures { Turned 4 x.now y.new }
{
    for k in 0..n {
        let folded = fold_four(x[k], x[k + 4], x[k + 8], x[k + 12]);
        y[k] = folded[0];
        y[k + 4] = folded[1];
        y[k + 8] = folded[2];
        y[k + 12] = folded[3];
    }
}

// Two foldings more are the sums over the signatures, and each sum is the value of a pair. The eight values of a row are stored together: by way of the sums the compiler stores them twice
// over, which is slower by a fifth. Inlined, it would know the lengths from the caller's checks, and write the loops out.
#[inline(never)]
fn write_values(indicators: &[i32], values: &mut [i32])
    requires { Sixteen 16 indicators.now × (length values.old ≡ 32) }
    ensures { values.new ≡ values_of indicators.now }
{
    let n = indicators.len() / 4;
    let mut y = [0i32; 16];
    columns(indicators, n, &mut y);
    for k in 0..n {
        let folded = fold_four(y[4 * k], y[4 * k + 1], y[4 * k + 2], y[4 * k + 3]);
        values[8 * k] = folded[0];
        values[8 * k + 1] = folded[0];
        values[8 * k + 2] = folded[1];
        values[8 * k + 3] = folded[1];
        values[8 * k + 4] = folded[2];
        values[8 * k + 5] = folded[2];
        values[8 * k + 6] = folded[3];
        values[8 * k + 7] = folded[3];
    }
}

// The values of the indicators, or the refusal and the values as they were.
pub fn map(indicators: &[i32], values: &mut [i32]) -> Result<(), Refusal>
    ensures { Map indicators.now values.old (verdict_of result) values.new }
{
    check_map(indicators, values.len())?;
    write_values(indicators, values);
    Ok(())
}

// The first checks of `read`.
fn check_head(values_length: usize, indicators_length: usize) -> Result<(), Refusal>
    ensures { verdict_of result ≡ read_head values_length indicators_length }
{
    require(values_length == 32, Reason::Length, 0)?;
    require(indicators_length == 16, Reason::Length, 1)
}

// A value that sixteen indicators can reach.
fn small(a: i32) -> bool
    ensures { result ≡ between (negsuc 15) (pos 16) a }
{
    -16 <= a && a <= 16
}

// Two equal ones.
fn is_pair(a: i32, b: i32) -> bool
    ensures { result ≡ is_pair a b }
{
    a == b && small(a)
}

// Whether the values come in such pairs: correlation alone would let others pass. A loop that takes no early way out can go many pairs at a time.
fn all_alike(values: &[i32]) -> bool
    requires { length values.now ≡ 32 }
    ensures { result ≡ all 16 (alike values.now) }
{
    let mut good = true;
    for k in 0..16 {
        if !is_pair(values[2 * k], values[2 * k + 1]) {
            good = false;
        }
    }
    good
}

// The value of a pair, whose two values are alike. Both are asked for: where only every second number is read the compiler goes one by one.
fn value_of(values: &[i32], i: usize) -> i32
    requires { Paired values.now × (i < 16) }
    ensures { result ≡ get_or (firsts values.now) i (pos 0) }
{
    let a = values[2 * i];
    if a == values[2 * i + 1] { a } else { 0 }
}

// One value of each pair.
fn firsts(values: &[i32]) -> [i32; 16]
    requires { Paired values.now }
    ensures { result ≡ firsts values.now }
{
    let mut firsts = [0i32; 16];
    for k in 0..16 {
        firsts[k] = value_of(values, k);
    }
    firsts
}

// The sum of each signature over the pairs, by two foldings and two more. The sums are lent as `y` is.
#[inline(never)]
fn find_sums(values: &[i32], sums: &mut [i32])
    requires { Paired values.now × (length sums.old ≡ 16) }
    ensures { sums.new ≡ half_of (firsts values.now) }
{
    let n = values.len() / 8;
    let x = firsts(values);
    let mut y = [0i32; 16];
    columns(&x, n, &mut y);
    for k in 0..n {
        let folded = fold_four(y[4 * k], y[4 * k + 1], y[4 * k + 2], y[4 * k + 3]);
        sums[4 * k] = folded[0];
        sums[4 * k + 1] = folded[1];
        sums[4 * k + 2] = folded[2];
        sums[4 * k + 3] = folded[3];
    }
}

// The sign of a sum.
fn sign_of(sum: i32) -> i32
    ensures { result ≡ sign_of sum }
{
    if 0 < sum {
        return 1;
    }
    if sum < 0 {
        return -1;
    }
    0
}

// 16 times an indicator. Three numbers to compare with would be a table of bits, one sum at a time.
fn fits(sum: i32) -> bool
    ensures { result ≡ fits16 sum }
{
    16 * sign_of(sum) == sum
}

// Whether every signature's sum is an indicator's.
fn all_fit(sums: &[i32]) -> bool
    requires { length sums.now ≡ 16 }
    ensures { result ≡ all 16 (fits_at sums.now) }
{
    let mut good = true;
    for s in 0..16 {
        if !fits(sums[s]) {
            good = false;
        }
    }
    good
}

// The indicators of sums that fit are their signs.
fn write_indicators(sums: &[i32], indicators: &mut [i32])
    requires { (length sums.now ≡ 16) × (length indicators.old ≡ 16) }
    ensures { indicators.new ≡ units_of sums.now }
{
    for s in 0..16 {
        indicators[s] = sign_of(sums[s]);
    }
}

// The checks of `read` in their order. The sums that are left in the lent run say which indicators the values give.
fn check_read(values: &[i32], indicators_length: usize, sums: &mut [i32]) -> Result<(), Refusal>
    requires { length sums.old ≡ 16 }
    ensures { Summed values.now indicators_length (with_sums result sums.new) }
{
    check_head(values.len(), indicators_length)?;
    require(all_alike(values), Reason::Values, 0)?;
    find_sums(values, sums);
    require(all_fit(sums), Reason::Values, 0)?;
    Ok(())
}

// The indicators of the values, or the refusal and the indicators as they were.
pub fn read(values: &[i32], indicators: &mut [i32]) -> Result<(), Refusal>
    ensures { Read values.now indicators.old (verdict_of result) indicators.new }
{
    let mut sums = [0i32; 16];
    check_read(values, indicators.len(), &mut sums)?;
    write_indicators(&sums, indicators);
    Ok(())
}

// `map` under a set of available signatures.
pub fn map_available(available: u16, indicators: &[i32], values: &mut [i32]) -> Result<(), Refusal>
    ensures { MapAvailable available indicators.now values.old (verdict_of result) values.new }
{
    check_map(indicators, values.len())?;
    set::check(available as u32, indicators)?;
    write_values(indicators, values);
    Ok(())
}

// `read` under a set of available signatures. A sum that fits is 0 where its indicator is, so the set is asked of the sums: nothing may be written before.
pub fn read_available(available: u16, values: &[i32], indicators: &mut [i32]) -> Result<(), Refusal>
    ensures { ReadAvailable available values.now indicators.old (verdict_of result) indicators.new }
{
    let mut sums = [0i32; 16];
    check_read(values, indicators.len(), &mut sums)?;
    set::check(available as u32, &sums)?;
    write_indicators(&sums, indicators);
    Ok(())
}
