// Answers held against what is recorded: a number, a point, and the first of the values that a refusal carries.
ghost use Rattle.std.specs.Prelude.{◌≡◌, ◌+◌, ◌≤◌, length};
ghost use Rattle.replay_records.specs.Given.{has_bits, same_point, point_from, first_of};

use crate::{float, pattern};
use answers::Values;
use floats::bits;
use math::Point;

// Whether x has these bits; a NaN has 7FC00000.
pub fn has_bits(x: f32, due: u32) -> bool
    ensures { result ≡ has_bits x due }
{
    bits(x) == due
}

// Whether a point's coordinates have these bits.
pub fn same_point(p: Point, x: u32, y: u32) -> bool
    ensures { result ≡ same_point p x y }
{
    has_bits(p.x, x) & has_bits(p.y, y)
}

// The point of the two patterns at this offset.
pub fn point(text: &[u8], at: usize) -> Point
    requires { at + 16 ≤ length text.now }
    ensures { result ≡ point_from text.now at }
{
    Point {
        x: float(pattern(text, at)),
        y: float(pattern(text, at + 8)),
    }
}

// The first of the values that a refusal carries, or 0.
pub fn first_of(values: Values) -> usize
    ensures { result ≡ first_of values }
{
    match values {
        Values::Nothing => 0,
        Values::One(a) => a,
        Values::Two(a, _) => a,
        Values::Three(a, _, _) => a,
        Values::Four(a, _, _, _) => a,
        Values::Five(a, _, _, _, _) => a,
    }
}
