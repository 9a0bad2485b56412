// A walk along the line: the targets never fall, so that one walk serves all of them, and no running
// length is kept, for which the caller would have to lend room.
ghost use Rattle.std.specs.Prelude.{◌≡◌, ◌≤◌, ◌<◌};
ghost use Rattle.polyline.specs.Points.{count_of};
ghost use Rattle.resample.specs.Spacing.{target_at, pick_of, stretch_at, between_of, Evenly, Reached};

use math::{Point, lerp_point};
use polyline::inner::{leg, point_at};
use table::inner::share;

// The leg that ends at the point number `upper`, and the running lengths at its two ends. At the
// first point no leg ends: both lengths are 0.
#[derive(Clone, Copy)]
pub struct Stretch {
    pub upper: usize,
    pub low: f32,
    pub high: f32,
}

// How far along a line of this length the output point i lies, where `last` is the last one.
#[tactic(auto, unfolding(crate::specs::Spacing::target_at))]
pub fn target_at(total: f32, i: usize, last: usize) -> f32
    requires { Evenly i last }
    ensures { result ≡ target_at total last i }
{
    total * i as f32 / last as f32
}

// Walks on to the first running length that is not below the target, or to the last point.
pub fn advance(points: &[f32], from: Stretch, target: f32) -> Stretch
    requires { Reached points.now from target }
    ensures { result ≡ stretch_at points.now (pick_of points.now target) }
{
    let last = points.len() / 2 - 1;
    let mut upper = from.upper;
    let mut low = from.low;
    let mut high = from.high;
    // The project's scope names this form: a search loop that leaves with its index by break.
    let found = loop {
        if last <= upper {
            break upper;
        }
        if high < target {
            low = high;
            high = high + leg(points, upper);
            upper += 1;
        } else {
            break upper;
        }
    };
    Stretch {
        upper: found,
        low,
        high,
    }
}

// The point at a target on a stretch.
#[tactic(auto, unfolding(crate::specs::Spacing::between_of))]
pub fn between(points: &[f32], stretch: Stretch, target: f32) -> Point
    requires { stretch.upper < count_of points.now }
    ensures { result ≡ between_of points.now stretch target }
{
    let upper = stretch.upper;
    if upper == 0 {
        return point_at(points, 0);
    }
    let local = share(stretch.low, stretch.high, target);
    let lower = point_at(points, upper - 1);
    lerp_point(lower, point_at(points, upper), local)
}
