// Points of the plane, in path units, and vectors between them.
ghost use Rattle.std.specs.Prelude.{◌≡◌};
ghost use Rattle.math.specs.Math.{add_of, sub_of, scale_of, dot_of, length_of, distance_of, normalize_of, lerp_point_of};

use crate::numbers::lerp;

#[derive(Clone, Copy)]
pub struct Point {
    pub x: f32,
    pub y: f32,
}

pub fn add(a: Point, b: Point) -> Point
    ensures { result ≡ add_of a b }
{
    Point {
        x: a.x + b.x,
        y: a.y + b.y,
    }
}

// a - b
pub fn sub(a: Point, b: Point) -> Point
    ensures { result ≡ sub_of a b }
{
    Point {
        x: a.x - b.x,
        y: a.y - b.y,
    }
}

pub fn scale(v: Point, s: f32) -> Point
    ensures { result ≡ scale_of v s }
{
    Point {
        x: v.x * s,
        y: v.y * s,
    }
}

pub fn dot(a: Point, b: Point) -> f32
    ensures { result ≡ dot_of a b }
{
    a.x * b.x + a.y * b.y
}

// Worked out in f64 and rounded to f32 at the end: infinite only where the length itself is above the largest f32. Not laid into its
// callers, where LLVM would not see that two calls ask for one length.
#[inline(never)]
pub fn length(v: Point) -> f32
    ensures { result ≡ length_of v }
{
    lengths::length(v.x, v.y)
}

pub fn distance(a: Point, b: Point) -> f32
    ensures { result ≡ distance_of a b }
{
    length(sub(b, a))
}

// The direction of v. A vector of length at most 2^-23 has none: (0, 0). A NaN length divides.
pub fn normalize(v: Point) -> Point
    ensures { result ≡ normalize_of v }
{
    let len = length(v);
    if len <= floats::EPSILON {
        Point { x: 0.0, y: 0.0 }
    } else {
        Point {
            x: v.x / len,
            y: v.y / len,
        }
    }
}

pub fn lerp_point(a: Point, b: Point, t: f32) -> Point
    ensures { result ≡ lerp_point_of a b t }
{
    Point {
        x: lerp(a.x, b.x, t),
        y: lerp(a.y, b.y, t),
    }
}

// p with each NaN in the one pattern: a point that is stored or leaves goes through it.
pub fn tidy_point(p: Point) -> Point
    ensures { result ≡ p }
{
    Point {
        x: floats::tidy(p.x),
        y: floats::tidy(p.y),
    }
}
