// Atan2 of two f32. It equals its definition by steps in the crate `atan2_rule`, whose laws show that
// it keeps the rule for every pair.
#![tactic(auto)]

mod guess;
mod scale;
mod search;
mod test;

ghost use Rattle.std.specs.Prelude.{◌≡◌, ◌⊎◌, cond, true, ◌+◌, ◌-◌, ◌*◌, ◌/◌, ◌%◌, ◌^◌, ◌≤◌, ◌<◌};
ghost use Rattle.std.specs.Float.{binary64};
ghost use Rattle.std.specs.Float.Ieee.{to_bits};
ghost use Rattle.std.specs.Float.Ieee.Scale.{finite};
ghost use Rattle.atan2_rule.specs.Steps.{angle_bits, slanted, level, atan2_of};
ghost use Rattle.floats.specs.Patterns.{wide_infinity_bits};

use crate::guess::guess;
use crate::scale::{larger, part};
use crate::search::fallback;
use crate::test::{Direction, passes};
use floats::is_finite;

// a where `first` is true, else b.
fn pick(first: bool, a: u64, b: u64) -> u64
    ensures value { result ≡ cond first a b }
    ensures one { (result ≡ a) ⊎ (result ≡ b) }
{
    if first { a } else { b }
}

// The bits of a finite x as an f64.
fn wide(x: f32) -> u64
    requires { finite x ≡ true }
    ensures { (result ≡ to_bits binary64 x) × (result % 2 ^ 63 < wide_infinity_bits) }
{
    f64::to_bits(x as f64)
}

// The bits of the angle's size: the guess, or the search's answer where the guess fails the test.
fn angle(d: Direction, first: u32) -> u32
    requires { (947912704 ≤ first) × (first ≤ 1078530011) }
    ensures { (result ≡ angle_bits d.u d.v d.left first) × (result ≤ 1078530011) }
{
    if passes(d, first) {
        return first;
    }
    fallback(d)
}

// The angle of a point off the x axis. a and b are the bits of y and x without their signs.
fn slant(y: f32, x: f32, a: u64, b: u64, sign: u32, left: u32) -> f32
    requires { (a < wide_infinity_bits) × (b < wide_infinity_bits) × (sign ≤ 1) × (left ≤ 1) }
    ensures { result ≡ slanted y x a b sign left }
{
    let top = larger(a, b);
    let u = part(a, top);
    let v = part(b, top);
    if u * 8192 + left as u64 * 0x4000_0000 <= v {
        return y / x;
    }
    let d = Direction { u, v, left };
    f32::from_bits(sign * 0x8000_0000 + angle(d, guess(a, b, d)))
}

// The angle of a point on the x axis.
fn axis(y: f32, b: u64, sign: u32, left: u32) -> f32
    requires { sign ≤ 1 }
    ensures { result ≡ level y b sign left }
{
    if b == 0 {
        return 0.0;
    }
    if left == 0 {
        return y;
    }
    f32::from_bits(sign * 0x8000_0000 + 0x4049_0FDB)
}

// The angle from the x axis to the point (x, y), from -PI to PI: NaN where one is not finite, and 0
// where both are zero.
pub fn atan2(y: f32, x: f32) -> f32
    ensures { result ≡ atan2_of y x }
{
    if !is_finite(y) {
        return 0.0 / 0.0;
    }
    if !is_finite(x) {
        return 0.0 / 0.0;
    }
    let c = wide(y);
    let d = wide(x);
    let a = c % 0x8000_0000_0000_0000;
    let b = d % 0x8000_0000_0000_0000;
    let sign = (c / 0x8000_0000_0000_0000) as u32;
    let left = (d / 0x8000_0000_0000_0000) as u32;
    if a == 0 {
        return axis(y, b, sign, left);
    }
    slant(y, x, a, b, sign, left)
}
