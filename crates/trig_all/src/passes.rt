// From a run's angles to its sines and cosines, which take the angles' places in two rows of 32. In each pass a step waits for none
// before it.
ghost use Rattle.std.specs.Prelude.{ℕ, ◌+◌, ◌-◌, ◌≤◌};
ghost use Rattle.trig_rule.specs.Steps.{sine_plus, sine_minus, cosine_plus, cosine_minus, sine_of, cosine_of};
ghost use Rattle.trig_all.specs.Rows.{Row, Run, rest_at, flip_at};

use crate::steps::{cosine_from, sine_from, stepped_bits};
use crate::sums::{put_fourths, sums};
use trig::inner::{COSINE_MINUS, COSINE_PLUS, SINE_MINUS, SINE_PLUS, fixed, reduce};

// Puts what whole turns leave of each angle.
fn put_rests(x: &[f32; 32], at: usize, n: usize, r: &mut [u64; 8], flip: &mut [u8; 8])
    requires { (n ≤ 8) × (at + n ≤ 32) }
    ensures rests { Row (rest_at x.now at) n r.new }
    ensures flips { Row (flip_at x.now at) n flip.new }
{
    for i in 0..n {
        let rest = reduce(fixed(stepped_bits(x[at + i])));
        r[i] = rest.size;
        flip[i] = rest.flip as u8;
    }
}

// Puts the cosine of each angle beside it.
fn put_cosines(
    x: &[f32; 32],
    plus: &[u32; 8],
    minus: &[u32; 8],
    at: usize,
    n: usize,
    y: &mut [f32; 32],
)
    requires places { (n ≤ 8) × (at + n ≤ 32) }
    requires sums { Row (λ (k : ℕ). cosine_plus (rest_at x.now at k)) n plus.now × Row (λ (k : ℕ). cosine_minus (rest_at x.now at k)) n minus.now }
    ensures { Run cosine_of at n x.now y.old y.new }
{
    for i in 0..n {
        y[at + i] = cosine_from(x[at + i], plus[i], minus[i]);
    }
}

// Puts the sine of each angle in its place.
fn put_sines(
    flip: &[u8; 8],
    r: &[u64; 8],
    plus: &[u32; 8],
    minus: &[u32; 8],
    at: usize,
    n: usize,
    x: &mut [f32; 32],
)
    requires places { (n ≤ 8) × (at + n ≤ 32) }
    requires rests { Row (rest_at x.old at) n r.now × Row (flip_at x.old at) n flip.now }
    requires sums { Row (λ (k : ℕ). sine_plus (rest_at x.old at k)) n plus.now × Row (λ (k : ℕ). sine_minus (rest_at x.old at k)) n minus.now }
    ensures { Run sine_of at n x.old x.old x.new }
{
    for i in 0..n {
        x[at + i] = sine_from(x[at + i], flip[i], r[i], plus[i], minus[i]);
    }
}

// Puts the sines of the angles from place `from` to before `to` in their places, and the cosines beside them.
pub fn sin_cos_run(x: &mut [f32; 32], y: &mut [f32; 32], from: usize, to: usize)
    requires { (from ≤ to) × (to ≤ from + 8) × (to ≤ 32) }
    ensures sines { Run sine_of from (to - from) x.old x.old x.new }
    ensures cosines { Run cosine_of from (to - from) x.old y.old y.new }
{
    let n = to - from;
    let mut r = [0u64; 8];
    let mut flip = [0u8; 8];
    let mut v = [0u64; 8];
    let mut plus = [0u32; 8];
    let mut minus = [0u32; 8];
    put_rests(x, from, n, &mut r, &mut flip);
    put_fourths(&r, n, &mut v);
    sums(&r, &v, COSINE_PLUS, COSINE_MINUS, n, &mut plus, &mut minus);
    put_cosines(x, &plus, &minus, from, n, y);
    sums(&r, &v, SINE_PLUS, SINE_MINUS, n, &mut plus, &mut minus);
    put_sines(&flip, &r, &plus, &minus, from, n, x);
}
