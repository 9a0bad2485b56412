// The answers of the steps by f64, which hold whole numbers exactly: a pattern of 53 digits is rounded
// to one of 24.
ghost use Rattle.std.specs.Prelude.{◌≡◌, ◌+◌, ◌*◌, ◌/◌, ◌%◌, ◌^◌, ◌<◌, ◌≤◌, ◌≢◌, from_bits};
ghost use Rattle.std.specs.Float.{binary32};
ghost use Rattle.floats.specs.Patterns.{narrow_step, narrow_half};
ghost use Rattle.trig_rule.specs.Steps.{half, gap_of, over_of, pack_of, cosine_at};
ghost use Rattle.trig_single.specs.Single.{Ranged, Stands, signed_single, sine_from};

use crate::sides::{Sides, cosine_sides, sine_at};

// The f32 nearest to the f64 with the bits b, halves away from 0. It is 0, or no f32 has a digit more
// about there.
fn single(b: u64) -> f32
    requires { Ranged b }
    ensures { result ≡ from_bits binary32 (signed_single b) }
{
    f64::from_bits((b + 0x1000_0000) / 0x2000_0000 * 0x2000_0000) as f32
}

// (a - t) / 2^28 as an f32. In the bits of 1.5·2^24 the last digit is 2^-28.
pub fn near(a: u64, t: u64) -> f32
    requires { (a < 2 ^ 32) × (t < 2 ^ 32) }
    ensures { result ≡ from_bits binary32 (over_of a t * 2 ^ 31 + pack_of (gap_of a t) 58) }
{
    let d = f64::from_bits(0x4178_0000_0000_0000 + a - t) - 25165824.0;
    single(f64::to_bits(d))
}

// The cosine at r.
pub(crate) fn cosine_near(r: u64) -> f32
    requires { r ≤ half }
    ensures { result ≡ from_bits binary32 (cosine_at r) }
{
    let sides = cosine_sides(r);
    near(sides.plus, sides.minus)
}

// The bits of the sine at r as an f64, unless they end in the middle of two f32: the 31 leading digits of
// r times the difference of its sides, in whose bits the last digit is 2^-81. Of the 53 digits of r / 32
// the last 22 are cut off.
fn product(turned: u32, r: u64, sides: Sides) -> u64
    requires { (2 ^ 36 ≤ r) × (r ≤ half) × (sides.plus < 2 ^ 32) × (sides.minus < 2 ^ 32) }
    ensures { (result % narrow_step ≢ narrow_half) → Stands result (sine_from turned r sides.plus sides.minus) }
{
    let b = f64::to_bits((r / 32) as f64);
    let head = f64::from_bits(b - b % 0x40_0000);
    let d = f64::from_bits(0x3E28_0000_0000_0000 + sides.plus - sides.minus)
        - 2.793967723846435546875e-09;
    let sign = (turned % 2) as u64 * 0x8000_0000_0000_0000;
    std::num::wrapping_add_u64(f64::to_bits(head * d), sign)
}

// The sine at r from its two sides, where `turned` counts what turns its sign over. A product that ends in
// a middle does not say on which side of it the sine is, and a small r has too few digits: there the steps
// decide.
pub(crate) fn sine_near(turned: u32, r: u64, sides: Sides) -> f32
    requires { (turned ≤ 2) × (r ≤ half) × (sides.plus < 2 ^ 32) × (sides.minus < 2 ^ 32) }
    ensures { result ≡ from_bits binary32 (sine_from turned r sides.plus sides.minus) }
{
    if 0x10_0000_0000 <= r {
        let w = product(turned, r, sides);
        if w % 0x2000_0000 != 0x1000_0000 {
            return single(w);
        }
    }
    f32::from_bits(sine_at(turned, r, sides))
}
