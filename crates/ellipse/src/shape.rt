// Points and directions on the ellipse of an arc.
ghost use Rattle.std.specs.Prelude.{◌≡◌};
ghost use Rattle.floats.specs.Floats.{clamp01_of};
ghost use Rattle.ellipse.specs.Shape.{on_ellipse, slope_of, angle_at, point_turned, point_on, direction_on};

use crate::ends::Arc;
use crate::turn::turn_of;
use math::Point;
use table::{RawParameter, number_of};
use trig::SinCos;

// The point of the ellipse at an angle, F.6.3, from the sines and cosines of rotation and angle.
pub fn on_ellipse(center: Point, radii: Point, turn: SinCos, angle: SinCos) -> Point
    ensures { result ≡ on_ellipse center radii turn.sin turn.cos angle.sin angle.cos }
{
    Point {
        x: center.x + turn.cos * radii.x * angle.cos - turn.sin * radii.y * angle.sin,
        y: center.y + turn.sin * radii.x * angle.cos + turn.cos * radii.y * angle.sin,
    }
}

// The derivative there, times how far the arc turns.
fn slope(delta: f32, radii: Point, turn: SinCos, angle: SinCos) -> Point
    ensures { result ≡ slope_of delta radii turn.sin turn.cos angle.sin angle.cos }
{
    Point {
        x: delta * (-turn.cos * radii.x * angle.sin - turn.sin * radii.y * angle.cos),
        y: delta * (-turn.sin * radii.x * angle.sin + turn.cos * radii.y * angle.cos),
    }
}

// The angle where a share t of the turn is done, the raw parameter: start_angle + delta_angle·t. t is clamped, a NaN is 0.
pub fn angle_at(arc: Arc, raw: RawParameter) -> f32
    ensures { result ≡ angle_at arc (clamp01_of raw.value) }
{
    arc.start_angle + arc.delta_angle * floats::clamp01(number_of(raw))
}

// The point there. Sine and cosine of the rotation are lent, so that many points of one arc take them once.
pub fn point_turned(arc: Arc, turn: SinCos, raw: RawParameter) -> Point
    ensures { result ≡ point_turned arc turn raw.value }
{
    let center = arc.center;
    let radii = arc.radii;
    let angle = trig::sin_cos(angle_at(arc, raw));
    on_ellipse(center, radii, turn, angle)
}

// That point of an arc by itself.
pub fn point(arc: Arc, raw: RawParameter) -> Point
    ensures { result ≡ point_on arc raw.value }
{
    point_turned(arc, turn_of(arc.x_axis_rotation), raw)
}

// The direction there: the derivative in t, normalized. t is taken as it is.
pub fn direction(arc: Arc, raw: RawParameter) -> Point
    ensures { result ≡ direction_on arc raw.value }
{
    let radii = arc.radii;
    let angle = trig::sin_cos(arc.start_angle + arc.delta_angle * number_of(raw));
    let turn = turn_of(arc.x_axis_rotation);
    math::normalize(slope(arc.delta_angle, radii, turn, angle))
}
