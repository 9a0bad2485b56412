// The angles of math.rs: the heading of a tangent, and the signed angle from one vector to another.
#![tactic(auto)]

ghost use Rattle.std.specs.Prelude.{◌≡◌};
ghost use Rattle.angles.specs.Angles.{rotation_deg_of, cross_of, sign_of, cosine_of_angle, angle_between_of};

use math::Point;

// The heading of a tangent in degrees, counted from the x axis towards the y axis, in [-180, 180].
// No direction, (0, 0) with zeros of either sign, gives 0.
pub fn rotation_deg(tangent: Point) -> f32
    ensures { result ≡ rotation_deg_of tangent }
{
    let x = tangent.x;
    let y = tangent.y;
    if x == 0.0 {
        if y == 0.0 {
            return 0.0;
        }
    }
    math::rad_to_deg(atan2::atan2(y, x))
}

// -1 where v lies clockwise of u, by the sign of u.x·v.y - u.y·v.x, and 1 elsewhere.
fn sign(u: Point, v: Point) -> f32
    ensures { result ≡ sign_of u v }
{
    if u.x * v.y - u.y * v.x < 0.0 {
        -1.0
    } else {
        1.0
    }
}

// The product of u and v over their lengths, held to -1 and 1. A NaN stays.
fn cosine(u: Point, v: Point) -> f32
    ensures { result ≡ cosine_of_angle u v }
{
    let denom = floats::max(math::length(u) * math::length(v), floats::EPSILON);
    floats::clamp(math::dot(u, v) / denom, -1.0, 1.0)
}

// The angle from u to v in radians, signed, in [-π, π].
pub fn angle_between(u: Point, v: Point) -> f32
    ensures { result ≡ angle_between_of u v }
{
    let value = cosine(u, v);
    sign(u, v) * atan2::atan2(root::sqrt(floats::max(1.0 - value * value, 0.0)), value)
}
