// Sine and cosine of an angle in radians. Each equals its definition by steps in the crate `trig_rule`,
// whose laws show that it keeps the rule.
#![tactic(auto)]

pub mod inner;
mod near;
mod sides;

ghost use Rattle.std.specs.Prelude.{◌≡◌};
ghost use Rattle.trig_rule.specs.Rule.{in_the_reach};
ghost use Rattle.trig_rule.specs.Steps.{sine_of, cosine_of};

use crate::near::{cosine_near, sine_near};
use crate::sides::{fixed, reduce, sine_sides};

#[derive(Clone, Copy)]
pub struct SinCos {
    pub sin: f32,
    pub cos: f32,
}

// Whether x is at most 64 in size. A NaN is not.
pub fn in_reach(x: f32) -> bool
    ensures { result ≡ in_the_reach x }
{
    -64.0 <= x && x <= 64.0
}

// The sine of an angle of at most 64 in size, and NaN for any other.
pub fn sin(x: f32) -> f32
    ensures { result ≡ sine_of x }
{
    if !in_reach(x) {
        return 0.0 / 0.0;
    }
    let b = f32::to_bits(x);
    let a = b % 0x8000_0000;
    if a < 0x3980_0000 {
        return x;
    }
    let r = reduce(fixed(a));
    let sides = sine_sides(r.size);
    sine_near(b / 0x8000_0000 + r.flip, r.size, sides)
}

// The cosine of an angle of at most 64 in size, and NaN for any other.
pub fn cos(x: f32) -> f32
    ensures { result ≡ cosine_of x }
{
    if !in_reach(x) {
        return 0.0 / 0.0;
    }
    let a = f32::to_bits(x) % 0x8000_0000;
    if a < 0x3980_0000 {
        return 1.0;
    }
    let r = reduce(fixed(a));
    cosine_near(r.size)
}

// Both at once, with one reduction.
pub fn sin_cos(x: f32) -> SinCos
    ensures { (result.sin ≡ sine_of x) × (result.cos ≡ cosine_of x) }
{
    if !in_reach(x) {
        return SinCos {
            sin: 0.0 / 0.0,
            cos: 0.0 / 0.0,
        };
    }
    let b = f32::to_bits(x);
    let a = b % 0x8000_0000;
    if a < 0x3980_0000 {
        return SinCos { sin: x, cos: 1.0 };
    }
    let r = reduce(fixed(a));
    let sides = sine_sides(r.size);
    let s = sine_near(b / 0x8000_0000 + r.flip, r.size, sides);
    let c = cosine_near(r.size);
    SinCos { sin: s, cos: c }
}
