// The bounds of the shape between two shapes.
ghost use Rattle.std.specs.Prelude.{◌≡◌, ◌<◌};
ghost use Rattle.morph.specs.Shapes.{shared_of};
ghost use Rattle.morph.specs.Bounds.{point_bounds, widened, bounds_of, bounded_of};

use crate::between::{between_at, progress, shared};
use answers::Refusal;
use floats::{max, min, tidy};
use math::Point;
use polyline::judge_two;

// The smallest and the largest of each coordinate, in path units.
#[derive(Clone, Copy)]
pub struct Bounds {
    pub min_x: f32,
    pub min_y: f32,
    pub max_x: f32,
    pub max_y: f32,
}

// The bounds of one point.
fn around(p: Point) -> Bounds
    ensures { result ≡ point_bounds p }
{
    Bounds {
        min_x: p.x,
        min_y: p.y,
        max_x: p.x,
        max_y: p.y,
    }
}

// The bounds with one more point. A NaN loses against a number, and of equal zeros the first stays.
fn widen(b: Bounds, p: Point) -> Bounds
    ensures { result ≡ widened b p }
{
    Bounds {
        min_x: min(b.min_x, p.x),
        min_y: min(b.min_y, p.y),
        max_x: max(b.max_x, p.x),
        max_y: max(b.max_y, p.y),
    }
}

fn tidied(b: Bounds) -> Bounds
    ensures { result ≡ b }
{
    Bounds {
        min_x: tidy(b.min_x),
        min_y: tidy(b.min_y),
        max_x: tidy(b.max_x),
        max_y: tidy(b.max_y),
    }
}

// The bounds of all points of the shape between, of which there is one.
fn bounds_between(from: &[f32], to: &[f32], along: f32) -> Bounds
    requires { 0 < shared_of from.now to.now }
    ensures { result ≡ bounds_of from.now to.now along (shared_of from.now to.now) }
{
    let count = shared(from, to);
    let mut bounds = around(between_at(from, to, along, 0));
    for i in 1..count {
        bounds = widen(bounds, between_at(from, to, along, i));
    }
    bounds
}

// The bounds of the shape at the progress t. Where one shape has no points, they are four zeros.
#[tactic(auto, unfolding(crate::specs::Bounds::bounded_of, crate::specs::Bounds::bounds_of, crate::specs::Bounds::no_bounds, floats::specs::Floats::zero_f))]
pub fn bounds_at(from: &[f32], to: &[f32], t: f32) -> Result<Bounds, Refusal>
    ensures { result ≡ bounded_of from.now to.now t }
{
    judge_two(from, to)?;
    if shared(from, to) == 0 {
        return Ok(Bounds {
            min_x: 0.0,
            min_y: 0.0,
            max_x: 0.0,
            max_y: 0.0,
        });
    }
    Ok(tidied(bounds_between(from, to, progress(t))))
}
