// One coordinate of a row of 16 samples. No step of a loop waits for another and none branches, so that the compiler works out four at
// once.
ghost use Rattle.std.specs.Prelude.{◌≡◌, ℕ, ◌+◌, ◌^◌, ◌≤◌, ◌<◌, pos};
ghost use Rattle.math.specs.Math.{lerp_of};
ghost use Rattle.table.specs.Lookup.{at};
ghost use Rattle.spline_table.specs.Near.{every, is_between};
ghost use Rattle.spline_table.specs.Rows.{clamped_mark_of, Scaled, blend_at, Laid, Apart};

use floats::clamp01;
use math::lerp;
use spline::inner::blend;

// The mark at which sample i of n is taken. A count of 16 bits is converted in lanes.
fn clamped_mark(i: usize, n: usize) -> f32
    requires i_bound { i < 2 ^ 16 }
    requires n_bound { n < 2 ^ 16 }
    ensures { result ≡ clamped_mark_of n i }
{
    clamp01((i as u16) as f32 / (n as u16) as f32)
}

// The marks of the samples from k on.
pub(crate) fn clamped_marks(last: usize, k: usize) -> [f32; 16]
    requires k_bound { k + 16 ≤ last }
    requires last_bound { last < 2 ^ 16 }
    ensures { (i : ℕ) → i < 16 → at result i ≡ clamped_mark_of last (k + i) }
{
    let mut r = [0.0f32; 16];
    for i in 0..16 {
        r[i] = clamped_mark(k + i, last);
    }
    r
}

// The same along this many spans. The first sample is taken already, and stands at `low`.
pub(crate) fn scaled(own: &[f32; 16], segments: usize, low: f32) -> [f32; 16]
    requires { segments < 2 ^ 16 }
    ensures { Scaled own.now segments result }
{
    let count = (segments as u16) as f32;
    let mut r = [0.0f32; 16];
    for i in 0..16 {
        r[i] = own[i] * count;
    }
    r[0] = low;
    r
}

// Whether every number is from `low` up to below `high`.
pub(crate) fn all_between(numbers: &[f32], low: f32, high: f32) -> bool
    ensures { result ≡ every (is_between low high) numbers.now }
{
    let mut all = true;
    for &own in numbers {
        all = all & ((low <= own) & (own < high));
    }
    all
}

// The samples from a to b.
pub(crate) fn leg_samples(a: f32, b: f32, first: f32, next: f32, own: &[f32; 16]) -> [f32; 17]
    ensures { Laid (lerp_of a b) own.now first next result }
{
    let mut r = [next; 17];
    for i in 0..16 {
        r[i] = lerp(a, b, own[i]);
    }
    r[0] = first;
    r
}

// The samples between p1 and p2, at what is left of each mark past `low`.
pub(crate) fn span_samples(
    p0: f32,
    p1: f32,
    p2: f32,
    p3: f32,
    low: f32,
    first: f32,
    next: f32,
    own: &[f32; 16],
) -> [f32; 17]
    ensures { Laid (blend_at p0 p1 p2 p3 low) own.now first next result }
{
    let mut r = [next; 17];
    for i in 0..16 {
        let t = own[i] - low;
        let t2 = t * t;
        r[i] = blend(p0, p1, p2, p3, t, t2, t2 * t);
    }
    r[0] = first;
    r
}

// The differences from each of 17 samples to the next. Nothing reads the other half.
pub(crate) fn differences_of(samples: &[f32; 17]) -> [f32; 32]
    ensures { Apart samples.now result }
{
    let mut r = [1.0f32; 32];
    for k in 0..16 {
        r[k] = samples[k + 1] - samples[k];
    }
    r
}
