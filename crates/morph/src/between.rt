// The shape between two shapes.
ghost use Rattle.std.specs.Prelude.{◌≡◌, ◌<◌};
ghost use Rattle.floats.specs.Floats.{clamp_of, zero_f, one_f};
ghost use Rattle.morph.specs.Shapes.{progress_of, shared_of, between_at};

use floats::clamp;
use math::{Point, lerp_point};
use polyline::inner::point_at;

// A morph's progress, from 0 to 1. A NaN stays.
#[tactic(auto, unfolding(crate::specs::Shapes::progress_of, floats::specs::Floats::zero_f, floats::specs::Floats::one_f))]
pub(crate) fn progress(t: f32) -> f32
    ensures { result ≡ progress_of t }
{
    clamp(t, 0.0, 1.0)
}

// How many points both shapes have.
#[tactic(auto, unfolding(crate::specs::Shapes::shared_of))]
pub(crate) fn shared(from: &[f32], to: &[f32]) -> usize
    ensures { result ≡ shared_of from.now to.now }
{
    (from.len() / 2).min(to.len() / 2)
}

// The point number i of the shape between, at a progress that was clamped.
#[tactic(auto, unfolding(crate::specs::Shapes::between_at, crate::specs::Shapes::shared_of))]
pub(crate) fn between_at(from: &[f32], to: &[f32], along: f32, i: usize) -> Point
    requires { i < shared_of from.now to.now }
    ensures { result ≡ between_at from.now to.now along i }
{
    let start = point_at(from, i);
    lerp_point(start, point_at(to, i), along)
}
