// The guess, in f64. Any answer in range is safe: the test decides.
ghost use Rattle.std.specs.Prelude.{◌≡◌, cond, ltb, ◌+◌, ◌-◌, ◌*◌, ◌/◌, ◌%◌, ◌^◌, ◌≤◌, ◌<◌};
ghost use Rattle.atan2_rule.specs.Steps.{bend_of, near_of, guess_of};
ghost use Rattle.floats.specs.Patterns.{wide_infinity_bits};

use crate::pick;
use crate::test::Direction;

// e + atan t by a polynomial in t·t, for t from -1 to 1: within 4.4e-10.
fn bend(e: f64, t: f64) -> f64
    ensures { result ≡ bend_of e t }
{
    let s = t * t;
    let q = s * s;
    let o = q * q;
    let k = t * o;
    let a = (0.9999999995535376 - 0.33333322488911593 * s)
        + q * (0.19999558100363982 - 0.14278576024807985 * s);
    let b = (0.1105077127584966 - 0.08785043282362845 * s)
        + q * (0.06685281517877424 - 0.04392841073326746 * s);
    let c = (0.021912945865448393 - 0.007030669470424213 * s) + q * 0.001057607438057242;
    e + t * a + (k * b + k * o * c)
}

// The bits of the f32 nearest to g, which is from 2^-14 to PI. For any other g it is PI.
fn near_bits(g: f64) -> u32
    ensures { (result ≡ near_of g) × (947912704 ≤ result) × (result ≤ 1078530011) }
{
    if g != g {
        return 0x4049_0FDB;
    }
    let b = f64::to_bits(g);
    if b < 0x3F10_0000_0000_0000 {
        return 0x4049_0FDB;
    }
    if b > 0x4009_21FB_6000_0000 {
        return 0x4049_0FDB;
    }
    ((b - 0x3800_0000_0000_0000 + 0x1000_0000) >> 29) as u32
}

// The bits of a right angle where u is the larger, and else of two where l is 1, and of 0 where it is
// 0: by products, since a branch on the larger one would be guessed wrong every other time.
fn base(u: u64, v: u64, l: u64) -> u64
    requires { (u < 2 ^ 30) × (v < 2 ^ 30) × (l ≤ 1) }
    ensures { (result ≡ cond (ltb v u) 4609753056924675352 (l * 4614256656552045848)) × (result ≤ 4614256656552045848) }
{
    let flat = (0x8000_0000_0000_0000 + v - u) >> 63;
    (1 - flat) * 4609753056924675352 + flat * l * 4614256656552045848
}

// The angle from the bits a and b of the sizes of y and x, which those of the direction are cut from. Where the
// point is on the left side or y is the larger, but not both, the small angle is taken away.
pub(crate) fn guess(a: u64, b: u64, d: Direction) -> u32
    requires { (a < wide_infinity_bits) × (b < wide_infinity_bits) }
    ensures { (result ≡ guess_of a b (ltb d.v d.u) d.left) × (947912704 ≤ result) × (result ≤ 1078530011) }
{
    let l = d.left as u64;
    let steep = d.v < d.u;
    let n = f64::from_bits(pick(steep, 1 - l, l) * 0x8000_0000_0000_0000 + pick(steep, b, a));
    let below = f64::from_bits(pick(steep, a, b));
    let start = f64::from_bits(base(d.u, d.v, l));
    near_bits(bend(start, n / below))
}
