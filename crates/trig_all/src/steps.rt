// What the passes do for one angle, with few branches.
ghost use Rattle.std.specs.Prelude.{◌≡◌, ◌≤◌};
ghost use Rattle.trig_rule.specs.Steps.{sine_plus, sine_minus, cosine_plus, cosine_minus, tiny_bits, sine_of, cosine_of};
ghost use Rattle.trig_all.specs.Rows.{stepped_bits, rest_for, flip_for};

use trig::in_reach;
use trig::inner::{dropped, gap, near, over, pack};

// The bits without the sign of an angle that steps are taken for, and those of 1 for any other.
pub(crate) fn stepped_bits(x: f32) -> u32
    ensures { (result ≡ stepped_bits x) × (tiny_bits ≤ result) × (result ≤ 1115684864) }
{
    if !in_reach(x) {
        return 0x3F80_0000;
    }
    let a = f32::to_bits(x) % 0x8000_0000;
    if a < 0x3980_0000 {
        return 0x3F80_0000;
    }
    a
}

// The cosine of x from the sums at its rest.
pub(crate) fn cosine_from(x: f32, plus: u32, minus: u32) -> f32
    requires { (plus ≡ cosine_plus (rest_for x)) × (minus ≡ cosine_minus (rest_for x)) }
    ensures { result ≡ cosine_of x }
{
    if !in_reach(x) {
        return 0.0 / 0.0;
    }
    if f32::to_bits(x) % 0x8000_0000 < 0x3980_0000 {
        return 1.0;
    }
    near(plus as u64, minus as u64)
}

// The sine of x from its rest and the sums there.
pub(crate) fn sine_from(x: f32, flip: u8, r: u64, plus: u32, minus: u32) -> f32
    requires { (flip ≡ flip_for x) × (r ≡ rest_for x) × (plus ≡ sine_plus (rest_for x)) × (minus ≡ sine_minus (rest_for x)) }
    ensures { result ≡ sine_of x }
{
    if !in_reach(x) {
        return 0.0 / 0.0;
    }
    let b = f32::to_bits(x);
    if b % 0x8000_0000 < 0x3980_0000 {
        return x;
    }
    let p = plus as u64;
    let t = minus as u64;
    let s = dropped(r);
    let m = pack((r >> s) * gap(p, t), s);
    f32::from_bits((b / 0x8000_0000 + flip as u32 + over(p, t)) % 2 * 0x8000_0000 + m)
}
