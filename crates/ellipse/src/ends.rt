// From the ends of an arc to its centre and angles.
ghost use Rattle.std.specs.Prelude.{◌≡◌};
ghost use Rattle.ellipse.specs.Ends.{size_of, sizes_of, primed_of, lambda_of, fitted_of, facing_of, coef_of, middle_of, center_of, towards_of, away_of, turned_of, way_of, from_ends_of};

use crate::turn::turn_of;
use math::Point;
use trig::SinCos;

// What the text of an arc gives: its ends, its radii as written, its rotation in degrees, its flags.
#[derive(Clone, Copy)]
pub struct Chord {
    pub start: Point,
    pub radii: Point,
    pub x_axis_rotation: f32,
    pub large_arc: bool,
    pub sweep: bool,
    pub end: Point,
}

// An arc by its ellipse: the fields of the Rust's EllipticalArc. The angles are where it starts and
// how far it turns, its sign the direction.
#[derive(Clone, Copy)]
pub struct Arc {
    pub start: Point,
    pub end: Point,
    pub center: Point,
    pub radii: Point,
    pub x_axis_rotation: f32,
    pub start_angle: f32,
    pub delta_angle: f32,
}

// What is worked out of an arc before its angles.
#[derive(Clone, Copy)]
pub struct Way {
    // Sine and cosine of the rotation.
    pub turn: SinCos,
    // The radii, grown until they reach both ends.
    pub radii: Point,
    // The centre before it is turned and moved.
    pub middle: Point,
    // From the centre to the start and to the end, in radii.
    pub towards: Point,
    pub away: Point,
}

// A number without its sign. -0 stays, which a radius never shows: it is too small for an ellipse.
pub fn size(x: f32) -> f32
    ensures { result ≡ size_of x }
{
    if x < 0.0 { -x } else { x }
}

// F.6.6.1: both radii without their signs.
fn sizes(radii: Point) -> Point
    ensures { result ≡ sizes_of radii }
{
    Point {
        x: size(radii.x),
        y: size(radii.y),
    }
}

// F.6.5.1: half the way from the end to the start, turned back by the rotation.
fn primed(turn: SinCos, start: Point, end: Point) -> Point
    ensures { result ≡ primed_of turn.sin turn.cos start end }
{
    let dx = (start.x - end.x) * 0.5;
    let dy = (start.y - end.y) * 0.5;
    Point {
        x: turn.cos * dx + turn.sin * dy,
        y: -turn.sin * dx + turn.cos * dy,
    }
}

// F.6.6.2: above 1 where the radii are too small to reach both ends.
fn lambda(radii: Point, p: Point) -> f32
    ensures { result ≡ lambda_of radii p }
{
    (p.x * p.x) / (radii.x * radii.x) + (p.y * p.y) / (radii.y * radii.y)
}

// F.6.6.3: the radii, grown until they reach.
fn fitted(radii: Point, p: Point) -> Point
    ensures { result ≡ fitted_of radii p }
{
    let over = lambda(radii, p);
    if over > 1.0 {
        return math::scale(radii, root::sqrt(over));
    }
    radii
}

// The sign of F.6.5.2: on which side of the chord the centre lies.
fn facing(same: bool) -> f32
    ensures { result ≡ facing_of same }
{
    if same { -1.0 } else { 1.0 }
}

// The factor of F.6.5.2. A denominator of at most 2^-23 makes it 0, and what is below 0 under the
// root, or a NaN, counts as 0.
fn coef(radii: Point, p: Point, same: bool) -> f32
    ensures { result ≡ coef_of radii p same }
{
    let rx2 = radii.x * radii.x;
    let ry2 = radii.y * radii.y;
    let x1p2 = p.x * p.x;
    let y1p2 = p.y * p.y;
    let denom = rx2 * y1p2 + ry2 * x1p2;
    if denom <= floats::EPSILON {
        return 0.0;
    }
    facing(same) * root::sqrt(floats::max((rx2 * ry2 - rx2 * y1p2 - ry2 * x1p2) / denom, 0.0))
}

// F.6.5.2: the centre before it is turned and moved.
fn middle(coef: f32, radii: Point, p: Point) -> Point
    ensures { result ≡ middle_of coef radii p }
{
    Point {
        x: coef * (radii.x * p.y / radii.y),
        y: coef * (-radii.y * p.x / radii.x),
    }
}

// F.6.5.3: the centre.
fn center(turn: SinCos, m: Point, start: Point, end: Point) -> Point
    ensures { result ≡ center_of turn.sin turn.cos m start end }
{
    Point {
        x: turn.cos * m.x - turn.sin * m.y + (start.x + end.x) * 0.5,
        y: turn.sin * m.x + turn.cos * m.y + (start.y + end.y) * 0.5,
    }
}

// The first vector of F.6.5.5: from the centre to the start, in radii.
fn towards(p: Point, m: Point, radii: Point) -> Point
    ensures { result ≡ towards_of p m radii }
{
    Point {
        x: (p.x - m.x) / radii.x,
        y: (p.y - m.y) / radii.y,
    }
}

// The second vector of F.6.5.6: from the centre to the end, in radii.
fn away(p: Point, m: Point, radii: Point) -> Point
    ensures { result ≡ away_of p m radii }
{
    Point {
        x: (-p.x - m.x) / radii.x,
        y: (-p.y - m.y) / radii.y,
    }
}

// F.6.5.6: the turn, of the sign that the sweep asks for, a whole turn added or taken where it has
// the other.
fn turned(angle: f32, sweep: bool) -> f32
    ensures { result ≡ turned_of angle sweep }
{
    if sweep {
        if angle < 0.0 {
            return angle + math::PI * 2.0;
        }
        return angle;
    }
    if angle > 0.0 {
        return angle - math::PI * 2.0;
    }
    angle
}

// The way from both ends to the centre, F.6.5.
pub fn way_of(chord: Chord) -> Way
    ensures { result ≡ way_of chord }
{
    let turn = turn_of(chord.x_axis_rotation);
    let p = primed(turn, chord.start, chord.end);
    let radii = fitted(sizes(chord.radii), p);
    let middle = middle(coef(radii, p, chord.large_arc == chord.sweep), radii, p);
    let towards = towards(p, middle, radii);
    let away = away(p, middle, radii);
    Way {
        turn,
        radii,
        middle,
        towards,
        away,
    }
}

// The arc through both ends, F.6.5. The rotation turns the ellipse by any number of degrees and is kept as it is given, full turns
// too; a radius is taken without its sign.
pub fn from_ends(chord: Chord) -> Arc
    ensures { result ≡ from_ends_of chord }
{
    let start = chord.start;
    let end = chord.end;
    let way = way_of(chord);
    let radii = way.radii;
    let center = center(way.turn, way.middle, start, end);
    Arc {
        start,
        end,
        center,
        radii,
        x_axis_rotation: chord.x_axis_rotation,
        start_angle: angles::angle_between(Point { x: 1.0, y: 0.0 }, way.towards),
        delta_angle: turned(angles::angle_between(way.towards, way.away), chord.sweep),
    }
}
