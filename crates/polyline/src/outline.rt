// What asks for points or places that are there.
ghost use Rattle.std.specs.Prelude.{◌≡◌, ◌+◌, ◌*◌, ◌≤◌, ◌<◌, length};
ghost use Rattle.std.proofs.lemmas.List.Edits.{sets};
ghost use Rattle.polyline.specs.Points.{count_of, point_at, two_of};
ghost use Rattle.polyline.specs.Lengths.{leg_of, measured_of};

use answers::Refusal;
use floats::{is_finite, tidy};
use math::{Point, distance};

// The point number i.
#[tactic(auto, unfolding(crate::specs::Points::point_at))]
pub fn point_at(points: &[f32], i: usize) -> Point
    requires { i < count_of points.now }
    ensures { result ≡ point_at points.now i }
{
    Point {
        x: points[2 * i],
        y: points[2 * i + 1],
    }
}

// Puts a point at its two places, the point number i of the output, and touches no other.
pub fn put_point(out: &mut [f32], i: usize, p: Point)
    requires { 2 * i + 2 ≤ length out.old }
    ensures { out.new ≡ sets out.old (2 * i) (two_of p) }
{
    out[2 * i] = tidy(p.x);
    out[2 * i + 1] = tidy(p.y);
}

// The distance from the point number i to the next one.
#[tactic(auto, unfolding(crate::specs::Lengths::leg_of))]
pub fn leg(points: &[f32], i: usize) -> f32
    requires { i + 1 < count_of points.now }
    ensures { result ≡ leg_of points.now i }
{
    distance(point_at(points, i), point_at(points, i + 1))
}

// The length of a line through points: the sum of its legs. 11 carries the first point at which a running
// length is not finite.
pub fn measure(points: &[f32]) -> Result<f32, Refusal>
    ensures { result ≡ measured_of points.now }
{
    let count = points.len() / 2;
    let mut total = 0.0f32;
    for i in 1..count {
        total += leg(points, i - 1);
        if !is_finite(total) {
            return Err(Refusal::NotFinite(i));
        }
    }
    Ok(total)
}
