// The search for an angle that passes, by bisection over the bits of f32 below PI's.
ghost use Rattle.std.specs.Prelude.{◌≡◌, cond, ◌&&◌, ◌+◌, ◌-◌, ◌*◌, ◌/◌, ◌%◌, ◌^◌, ◌≤◌, ◌<◌, ltb, eqb};
ghost use Rattle.trig_rule.specs.Steps.{fixed_of};
ghost use Rattle.atan2_rule.specs.Steps.{ahead, behind, ahead_at, miss_at, climb, nearer, between_of, fallback_of};

use crate::pick;
use crate::test::{Direction, both, sides};
use trig::inner::fixed;

// u·cos - x·sin at the angle with the bits b: what it adds and what it takes away.
#[derive(Clone, Copy)]
pub struct Weighed {
    pub ahead: u64,
    pub behind: u64,
}

fn balance(d: Direction, b: u32) -> Weighed
    requires { (947912704 ≤ b) × (b ≤ 1078530010) }
    ensures { (result.ahead ≡ ahead d.u d.v (eqb d.left 0) (fixed_of b)) × (result.behind ≡ behind d.u d.v (eqb d.left 0) (fixed_of b)) }
{
    let s = sides(fixed(b));
    let right = d.left == 0;
    let to = both(d.u, s.cosine_up, d.v, pick(right, s.sine_down, s.sine_up));
    let from = both(d.u, s.cosine_down, d.v, pick(right, s.sine_up, s.sine_down));
    Weighed {
        ahead: to,
        behind: from,
    }
}

// Whether u·cos - x·sin is not negative at the angle with the bits b.
fn ahead_at(d: Direction, b: u32) -> bool
    requires { (947912704 ≤ b) × (b ≤ 1078530010) }
    ensures { result ≡ ahead_at d.u d.v d.left b }
{
    let s = balance(d, b);
    s.behind <= s.ahead
}

// Its size.
fn miss_at(d: Direction, b: u32) -> u64
    requires { (947912704 ≤ b) × (b ≤ 1078530010) }
    ensures { result ≡ miss_at d.u d.v d.left b }
{
    let s = balance(d, b);
    if s.behind <= s.ahead {
        s.ahead - s.behind
    } else {
        s.behind - s.ahead
    }
}

// t moved up by 2^k, where that is below `to` and still ahead.
fn stride(d: Direction, to: u32, t: u32, k: u32) -> u32
    requires { (947912704 ≤ t) × (t < to) × (to ≤ 1078530010) × (k < 27) }
    ensures { (result ≡ cond (ltb (t + 2 ^ k) to && ahead_at d.u d.v d.left (t + 2 ^ k)) (t + 2 ^ k) t) × (947912704 ≤ result) × (result < to) }
{
    let m = t + (1 << k);
    if m >= to {
        return t;
    }
    if ahead_at(d, m) { m } else { t }
}

// The last pattern from `from` on that strides of 2^26, .., 2, 1 reach.
fn climb(d: Direction, from: u32, to: u32) -> u32
    requires { (947912704 ≤ from) × (from < to) × (to ≤ 1078530010) }
    ensures { (result ≡ climb (ahead_at d.u d.v d.left) to 27 from) × (947912704 ≤ result) × (result < to) }
{
    let mut t = from;
    for k in (0..27u32).rev() {
        t = stride(d, to, t, k);
    }
    t
}

// Of t and t + 1 the one that misses by less.
fn nearer(d: Direction, t: u32) -> u32
    requires { (947912704 ≤ t) × (t < 1078530010) }
    ensures { (result ≡ nearer d.u d.v d.left t) × (result ≤ t + 1) }
{
    if miss_at(d, t) <= miss_at(d, t + 1) {
        t
    } else {
        t + 1
    }
}

// An angle between two ends: an end itself where the change of sign is not between them.
fn between(d: Direction, from: u32, to: u32) -> u32
    requires { (947912704 ≤ from) × (from < to) × (to ≤ 1078530010) }
    ensures { (result ≡ between_of d.u d.v d.left from to) × (result ≤ 1078530010) }
{
    if !ahead_at(d, from) {
        return from;
    }
    if ahead_at(d, to) {
        return to;
    }
    nearer(d, climb(d, from, to))
}

// The bits of an angle that passes the test, whatever the direction is.
pub(crate) fn fallback(d: Direction) -> u32
    ensures { (result ≡ fallback_of d.u d.v d.left) × (result ≤ 1078530010) }
{
    if d.v < d.u {
        return between(d, 0x3F49_0FDB, 0x4016_CBE4);
    }
    if d.left == 0 {
        between(d, 0x3880_0000, 0x3F49_0FDB)
    } else {
        between(d, 0x4016_CBE4, 0x4049_0FDA)
    }
}
