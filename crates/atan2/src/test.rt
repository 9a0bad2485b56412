// The test of an angle on whole numbers. u and v are the sizes of y and x, and `left` is 1 where x is
// negative; sums are in units of 2^-30.
ghost use Rattle.std.specs.Prelude.{◌≡◌, cond, ◌&&◌, ◌+◌, ◌-◌, ◌*◌, ◌/◌, ◌%◌, ◌^◌, ◌≤◌, ◌<◌, leb};
ghost use Rattle.trig_rule.specs.Reduction.{turn};
ghost use Rattle.trig_rule.specs.Steps.{half, fixed_of};
ghost use Rattle.atan2_rule.specs.Steps.{passes};
ghost use Rattle.atan2.specs.Sums.{SumsAt, Bounded, judged_of};

use crate::pick;
use trig::inner::{cosine_sides, fixed, sine_sides};

// Where a point lies, by the sizes u of y and v of x on one scale. `left` is a number, since the definitions of atan2_rule count with it.
#[derive(Clone, Copy)]
pub(crate) struct Direction {
    pub u: u64,
    pub v: u64,
    pub left: u32,
    ghost small: { (u < 2 ^ 30) × (v < 2 ^ 30) × (left ≤ 1) },
}

// What cosine and sine add and take away.
#[derive(Clone, Copy)]
pub struct Sums {
    pub cosine_up: u64,
    pub cosine_down: u64,
    pub sine_up: u64,
    pub sine_down: u64,
}

// The four sides at r, counted in 2^-56.
pub(crate) fn sides(r: u64) -> Sums
    requires { r ≤ half }
    ensures { SumsAt r result.cosine_up result.cosine_down result.sine_up result.sine_down }
{
    let c = cosine_sides(r);
    let s = sine_sides(r);
    let p = r >> 26;
    Sums {
        cosine_up: 4 * c.plus,
        cosine_down: 4 * c.minus,
        sine_up: (p * s.plus) >> 30,
        sine_down: (p * s.minus) >> 30,
    }
}

// u·a + v·b
pub(crate) fn both(u: u64, a: u64, v: u64, b: u64) -> u64
    requires { (u < 2 ^ 30) × (v < 2 ^ 30) × (a ≤ 6760253432) × (b ≤ 6760253432) }
    ensures { (result ≡ u * a + v * b) × (result ≤ 14517533701555879936) }
{
    u * a + v * b
}

// Whether a and b are at most l apart.
fn near(a: u64, b: u64, l: u64) -> bool
    requires { (a ≤ 14517533701555879936) × (b ≤ 14517533701555879936) × (l ≤ 2 ^ 41) }
    ensures { result ≡ leb a (b + l) && leb b (a + l) }
{
    if a <= b + l { b <= a + l } else { false }
}

// The test at an angle with the sides s. It is a negative rest of a turn where `flip` is 1, a number as in `judged_of`.
fn judged(d: Direction, flip: u32, s: Sums) -> bool
    requires { Bounded s.cosine_up s.cosine_down s.sine_up s.sine_down }
    ensures { result ≡ judged_of d.u d.v d.left flip s.cosine_up s.cosine_down s.sine_up s.sine_down }
{
    let same = d.left == flip;
    let right = d.left == 0;
    let straight = flip == 0;
    let limit = 900 * (d.u + d.v);
    let ahead = both(d.u, s.cosine_up, d.v, pick(same, s.sine_down, s.sine_up));
    let behind = both(d.u, s.cosine_down, d.v, pick(same, s.sine_up, s.sine_down));
    if near(ahead, behind, limit) {
        let along = both(
            d.v,
            pick(right, s.cosine_up, s.cosine_down),
            d.u,
            pick(straight, s.sine_up, s.sine_down),
        );
        let against = both(
            d.v,
            pick(right, s.cosine_down, s.cosine_up),
            d.u,
            pick(straight, s.sine_down, s.sine_up),
        );
        against + limit <= along
    } else {
        false
    }
}

// The sides at a turn less PI.
fn past_pi() -> Sums
    ensures { SumsAt (turn - fixed_of 1078530011) result.cosine_up result.cosine_down result.sine_up result.sine_down }
{
    Sums {
        cosine_up: 5686511060,
        cosine_down: 6760252892,
        sine_up: 6200181727,
        sine_down: 6200181607,
    }
}

// The test of the angle with the bits b. PI is above half a turn, and the rest of it is negative.
pub(crate) fn passes(d: Direction, b: u32) -> bool
    requires { (947912704 ≤ b) × (b ≤ 1078530011) }
    ensures { result ≡ passes d.u d.v d.left b }
{
    let x = fixed(b);
    if x <= 226375608064910088 {
        judged(d, 0, sides(x))
    } else {
        judged(d, 1, past_pi())
    }
}
