// The formula between four points.
ghost use Rattle.std.specs.Prelude.{◌≡◌};
ghost use Rattle.spline.specs.Formula.{blend_of, span_of};

use math::Point;

// One coordinate between p1 and p2, at t from 0 to 1 with its square and its cube.
pub fn blend(p0: f32, p1: f32, p2: f32, p3: f32, t: f32, t2: f32, t3: f32) -> f32
    ensures { result ≡ blend_of p0 p1 p2 p3 t t2 t3 }
{
    0.5 * (2.0 * p1
        + (-p0 + p2) * t
        + (2.0 * p0 - 5.0 * p1 + 4.0 * p2 - p3) * t2
        + (-p0 + 3.0 * p1 - 3.0 * p2 + p3) * t3)
}

// The point between p1 and p2 at t.
#[tactic(auto, unfolding(crate::specs::Formula::span_of))]
pub fn span(p0: Point, p1: Point, p2: Point, p3: Point, t: f32) -> Point
    ensures { result ≡ span_of p0 p1 p2 p3 t }
{
    let t2 = t * t;
    let t3 = t2 * t;
    Point {
        x: blend(p0.x, p1.x, p2.x, p3.x, t, t2, t3),
        y: blend(p0.y, p1.y, p2.y, p3.y, t, t2, t3),
    }
}
