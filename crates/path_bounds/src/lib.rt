// Points so near the origin that no length between them is infinite: whoever counts a path's places need not measure it. The laws in
// proofs/ say so of lines, quads, cubics, arcs and whole paths.
#![tactic(auto)]

ghost use Rattle.std.specs.Prelude.{◌≡◌, ◌&&◌};
ghost use Rattle.ellipse.specs.Ends.{from_ends_of};
ghost use Rattle.path_bounds.specs.Calm.{is_within, is_near, is_calm, is_narrow, is_calm_arc, is_mild_point, is_mild_way};

use ellipse::{Arc, Chord, Way, from_ends, way_of};
use floats::is_finite;
use math::Point;
use rotation::phi;

// Whether x is at most `bound` in size. A NaN is not.
fn is_within(x: f32, bound: f32) -> bool
    ensures { result ≡ is_within bound x }
{
    (x <= bound) & (-bound <= x)
}

// Whether both coordinates of a point are.
fn is_point_within(p: Point, bound: f32) -> bool
    ensures { result ≡ (is_within bound p.x && is_within bound p.y) }
{
    is_within(p.x, bound) & is_within(p.y, bound)
}

// Whether x is at most 2^40 in size. A NaN is not.
#[tactic(auto, unfolding(crate::specs::Calm::is_near, crate::specs::Calm::far_f, crate::specs::Calm::back_f))]
pub fn is_near(x: f32) -> bool
    ensures { result ≡ is_near x }
{
    is_within(x, 1099511627776.0)
}

// Whether both coordinates of a point are.
#[tactic(auto, unfolding(crate::specs::Calm::is_calm, crate::specs::Calm::is_near, crate::specs::Calm::far_f, crate::specs::Calm::back_f))]
pub fn is_calm(p: Point) -> bool
    ensures { result ≡ is_calm p }
{
    is_point_within(p, 1099511627776.0)
}

// Whether x is at most 16 in size. A NaN is not.
#[tactic(auto, unfolding(crate::specs::Calm::is_narrow, crate::specs::Calm::wide_f, crate::specs::Calm::wide_back_f))]
fn is_narrow(x: f32) -> bool
    ensures { result ≡ is_narrow x }
{
    is_within(x, 16.0)
}

// Whether an arc's centre and radii are calm and its angles at most 16 radians, those of its rotation too: then each of its samples is
// near, so that its length is known to be finite before its table is made.
#[tactic(auto, unfolding(crate::specs::Calm::is_calm_arc))]
pub fn is_calm_arc(shape: Arc) -> bool
    ensures { result ≡ is_calm_arc shape }
{
    let center = shape.center;
    let radii = shape.radii;
    let points = is_calm(center) & is_calm(radii);
    let angles = points & is_narrow(shape.start_angle) & is_narrow(shape.delta_angle);
    angles & is_narrow(phi(shape.x_axis_rotation))
}

// Whether both coordinates of a point are at most 2^30 in size.
#[tactic(auto, unfolding(crate::specs::Calm::is_mild_point, crate::specs::Calm::is_mild, crate::specs::Calm::mild_f, crate::specs::Calm::mild_back_f))]
fn is_mild_point(p: Point) -> bool
    ensures { result ≡ is_mild_point p }
{
    is_point_within(p, 1073741824.0)
}

// Whether all points that stand before an arc's angles are.
#[tactic(auto, unfolding(crate::specs::Calm::is_mild_way))]
fn is_mild_way(way: Way) -> bool
    ensures { result ≡ is_mild_way way }
{
    let radii = way.radii;
    let middle = way.middle;
    let towards = way.towards;
    let away = way.away;
    is_mild_point(radii) & is_mild_point(middle) & is_mild_point(towards) & is_mild_point(away)
}

// Whether the arc through both ends is calm. Its angles cost most of the way to it, and are not taken where all that stands before them is
// mild: they are at most 12 radians then.
pub fn is_calm_chord(chord: Chord) -> bool
    ensures { result ≡ is_calm_arc (from_ends_of chord) }
{
    let start = chord.start;
    let end = chord.end;
    if is_finite(chord.x_axis_rotation) {
        if is_mild_point(start) & is_mild_point(end) & is_mild_way(way_of(chord)) {
            return true;
        }
    }
    is_calm_arc(from_ends(chord))
}
