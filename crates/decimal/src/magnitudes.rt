// The bits of the f32 nearest to a number whose digits are passed and gathered. Up to 2^53 without an
// exponent it is one division; most others one product; what lies too near a middle for that is
// compared with it digit by digit.
ghost use Rattle.std.specs.Prelude.{◌≡◌, ◌⊎◌, false, true, cond, ℕ, ◌+◌, ◌-◌, ◌*◌, ◌%◌, ◌^◌, ◌≤◌, ◌<◌, eqb};
ghost use Rattle.std.specs.Float.{binary32, binary64};
ghost use Rattle.std.specs.Float.Ieee.{round, of_bits, to_bits};
ghost use Rattle.std.specs.Float.Ieee.Exact.{HasValue};
ghost use Rattle.floats.specs.Patterns.{sign_place, infinity_bits, narrow_step, narrow_half};
ghost use Rattle.decimal_rounding.specs.Wide.{narrowed_of};
ghost use Rattle.decimal_digits.specs.Digits.{digits_among};
ghost use Rattle.decimal_digits.specs.Exponent.{capped, most};
ghost use Rattle.decimal.specs.Bits.{Tells, Sides, Gathered, Rounds, Settles};

use decimal_product::inner::{Near, nearest};
use decimal_tie::inner::weigh;
use std::cmp::Ordering;

// One step of an f32's exponent in its bits.
const HIDDEN: u64 = 8388608;
// The sign's bit.
pub const SIGN_PLACE: u64 = 2147483648;
// Infinity's bits without the sign.
const INFINITY_BITS: u64 = 2139095040;

// 10^places. Over a type parameter this and `decimal_digits`' power would list the powers of either
// type all the same.
fn ten(places: u64) -> f64
    requires { places ≤ 8 }
    ensures { HasValue result false (10 ^ places) 1 }
{
    match places {
        0 => 1.0,
        1 => 10.0,
        2 => 100.0,
        3 => 1000.0,
        4 => 10000.0,
        5 => 100000.0,
        6 => 1000000.0,
        7 => 10000000.0,
        _ => 100000000.0,
    }
}

// w / 10^places, both of which are f64: one division.
fn quotient(w: u64, places: u64) -> f64
    requires { (w ≤ 2 ^ 53) × (places ≤ 8) }
    ensures { result ≡ round binary64 false w (10 ^ places) }
{
    w as f64 / ten(places)
}

// The bits of the quotient.
pub fn pattern(w: u64, places: u64) -> u64
    requires { (w ≤ 2 ^ 53) × (places ≤ 8) }
    ensures { result ≡ to_bits binary64 (round binary64 false w (10 ^ places)) }
{
    f64::to_bits(quotient(w, places))
}

// Whether a quotient's bits tell the nearest f32: they are no middle of two.
pub fn tells(b: u64) -> bool
    ensures { result ≡ true → b % narrow_step ≡ narrow_half → ⊥ }
{
    b % 536870912 != 268435456
}

// The bits of the f32: the last 29 digits are rounded off. Where w is 0 they are no pattern's of an f32;
// nothing foretells that, so that it is no branch.
pub fn narrow(w: u64, b: u64) -> u64
    requires { 0 < w → Tells b }
    ensures { result ≡ cond (eqb w 0) 0 (narrowed_of b) }
{
    if w == 0 {
        return 0;
    }
    (b + 268435456) / 536870912 - 7516192768
}

// A sign's bit: a number and no branch.
fn sign_of(negative: bool) -> u64
    ensures { result ≡ cond negative sign_place 0 }
{
    if negative { SIGN_PLACE } else { 0 }
}

// The f32 of the bits and the sign.
pub fn signed(bits: u64, negative: bool) -> f32
    requires { bits ≤ infinity_bits }
    ensures { result ≡ of_bits binary32 (cond negative sign_place 0 + bits) }
{
    f32::from_bits((sign_of(negative) + bits) as u32)
}

// a + b, or 93 * 10^17 where it is more.
fn sum(a: u64, b: u64) -> u64
    requires { a < most }
    ensures { (n : ℕ) → b ≡ capped n → result ≡ capped (a + n) }
{
    if 9300000000000000000 - a < b {
        return 9300000000000000000;
    }
    a + b
}

// On which side of the middle of m and m + 1 steps of 2^k smallest values the number lies: the number
// of a part's digits, count of them before the point, which is then moved right by rise or left by
// fall.
fn side(part: &[u8], count: u64, rise: u64, fall: u64, m: u64, k: u64) -> Ordering
    requires { (m < 2 ^ 24) × (k ≤ 253) × (count + rise < 2 ^ 64) }
    ensures { Sides (digits_among part.now) count rise fall m k result }
{
    let whole = count + rise;
    if fall <= whole {
        return weigh(part, whole - fall, 0, 2 * m + 1, k);
    }
    weigh(part, 0, fall - whole, 2 * m + 1, k)
}

// The bits where the number lies between m and m + 1 such steps: at the middle the even one's.
fn between(part: &[u8], count: u64, rise: u64, fall: u64, m: u64, k: u64) -> u64
    requires { (m < 2 ^ 24) × (k ≤ 253) × (count + rise < 2 ^ 64) }
    ensures { Settles (digits_among part.now) count rise fall m k result }
{
    match side(part, count, rise, fall, m, k) {
        Ordering::Less => k * HIDDEN + m,
        Ordering::Greater => k * HIDDEN + m + 1,
        Ordering::Equal => k * HIDDEN + m + m % 2,
    }
}

// The bits of the f32 nearest to the number of a part's digits: count of them before the point and
// places after it, the point then moved right by rise or left by fall.
pub fn magnitude(
    part: &[u8],
    count: u64,
    places: u64,
    w: u64,
    dropped: u64,
    rise: u64,
    fall: u64,
) -> u64
    requires { Gathered (digits_among part.now) count places w dropped rise fall }
    ensures { Rounds (digits_among part.now) places rise fall result }
{
    if w == 0 {
        return 0;
    }
    let up = sum(dropped + 64, rise);
    let down = sum(places, fall);
    if up < down {
        return 0;
    }
    if 102 < up - down {
        return INFINITY_BITS;
    }
    match nearest(w, up - down) {
        Near::Bits(bits) => bits,
        Near::Between(m, k) => between(part, count, rise, fall, m, k),
    }
}
