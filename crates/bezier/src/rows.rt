// One coordinate of a curve's samples, and a cubic's row of its differences from each sample to the next. No step of a row waits for
// another and none branches, so that the compiler works out several at once.
ghost use Rattle.std.specs.Prelude.{◌≡◌, ◌≤◌};
ghost use Rattle.bezier.specs.Rows.{quad_coordinate, cubic_coordinate, sample_mark, DifferencesOf};

use floats::clamp01;
use math::lerp;

// Where sample i is taken: i/31, and the one beyond the last at the end. A count of 16 bits is converted in lanes.
pub(crate) fn sample_mark(i: usize) -> f32
    requires { i ≤ 32 }
    ensures { result ≡ sample_mark i }
{
    clamp01((i as u16) as f32 / 31.0)
}

pub(crate) fn quad_coordinate(a: f32, b: f32, c: f32, t: f32) -> f32
    ensures { result ≡ quad_coordinate a b c t }
{
    lerp(lerp(a, b, t), lerp(b, c, t), t)
}

fn cubic_coordinate(a: f32, b: f32, c: f32, d: f32, t: f32) -> f32
    ensures { result ≡ cubic_coordinate a b c d t }
{
    lerp(quad_coordinate(a, b, c, t), quad_coordinate(b, c, d, t), t)
}

// The row of a cubic with the coordinates a, b, c and d: each sample once, and then the differences. `quad_steps` works
// each sample of a quad out twice, and needs no row of them. The last place leaves no rest in
// lanes; nothing reads it.
pub(crate) fn cubic_differences(a: f32, b: f32, c: f32, d: f32) -> [f32; 32]
    ensures { DifferencesOf (cubic_coordinate a b c d) result 31 }
{
    let mut samples = [d; 33];
    for i in 0..32 {
        samples[i] = cubic_coordinate(a, b, c, d, sample_mark(i));
    }
    let mut row = [0.0f32; 32];
    for k in 0..32 {
        row[k] = samples[k + 1] - samples[k];
    }
    row
}
