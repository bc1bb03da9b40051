// Samples for a simulator: docs/RULES.md, 'Samples'.
#![tactic(auto)]

ghost use Rattle.std.specs.Prelude.{◌≡◌, true};
ghost use Rattle.run.specs.Answers.{verdict_of};
ghost use Rattle.sample.specs.Answers.{sampled_of};
ghost use Rattle.sample.specs.Rule.{is_value, is_level, times, part};
ghost use Rattle.sample.specs.Outcome.{levels_verdict, take_verdict, Take};

use run::{Reason, Refusal, require};

// 1/1024 and 1024, the ends of the range of a level. Both are exact.
const LOWEST: f32 = 0.0009765625;

const HIGHEST: f32 = 1024.0;

// The transmit setting: nothing is sent, one level for both antennas, or the level of antenna 1 and that of antenna 2.
#[derive(Clone, Copy)]
pub enum Setting {
    Off,
    Shared(f32),
    Each(f32, f32),
}

// The in-phase and the quadrature part.
#[derive(Clone, Copy)]
pub struct Sample {
    pub inphase: f32,
    pub quadrature: f32,
}

fn is_value(v: i64) -> bool
    ensures { result ≡ is_value v }
{
    range::between(v, -16, 16)
}

// Both tests say what is taken, not what is refused: a NaN passes neither.
fn is_level(x: f32) -> bool
    ensures { result ≡ is_level x }
{
    LOWEST <= x && x <= HIGHEST
}

// The levels are checked in their order, whichever antenna is asked for.
fn check_levels(setting: Setting) -> Result<(), Refusal>
    ensures { verdict_of result ≡ levels_verdict setting }
{
    match setting {
        Setting::Off => Ok(()),
        Setting::Shared(level) => require(is_level(level), Reason::Range, 2),
        Setting::Each(first, second) => {
            require(is_level(first), Reason::Range, 2)?;
            require(is_level(second), Reason::Range, 3)
        }
    }
}

fn check(i: i64, q: i64, setting: Setting, antenna: usize) -> Result<(), Refusal>
    ensures { verdict_of result ≡ take_verdict i q setting antenna }
{
    require(is_value(i), Reason::Range, 0)?;
    require(is_value(q), Reason::Range, 1)?;
    check_levels(setting)?;
    require(antenna < 2, Reason::Range, 4)
}

// The value is exact as an f32, so the product is the one rounding.
fn times(v: i64, level: f32) -> f32
    requires { is_value v ≡ true }
    ensures { result ≡ times v level }
{
    (v as f32) * level
}

// What an antenna sends of a value.
fn part(setting: Setting, antenna: usize, v: i64) -> f32
    requires { is_value v ≡ true }
    ensures { result ≡ part setting antenna v }
{
    match setting {
        Setting::Off => 0.0,
        Setting::Shared(level) => times(v, level),
        Setting::Each(first, second) => {
            if antenna == 0 {
                times(v, first)
            } else {
                times(v, second)
            }
        }
    }
}

// The sample that an antenna sends (number 0 is antenna 1, number 1 is antenna 2) of two whole values, or the refusal.
pub fn take(i: i64, q: i64, setting: Setting, antenna: usize) -> Result<Sample, Refusal>
    ensures { Take i q setting antenna (sampled_of result) }
{
    check(i, q, setting, antenna)?;
    Ok(Sample {
        inphase: part(setting, antenna, i),
        quadrature: part(setting, antenna, q),
    })
}
