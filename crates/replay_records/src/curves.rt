// Answers about curves held against what is recorded: a refusal by its number, a place or a heading by its bits.
ghost use Rattle.std.specs.Prelude.{◌≡◌, ◌+◌, ◌≤◌, length};
ghost use Rattle.replay_records.specs.Curves.{verdict_number, placed_as, turned_as, same_answers};

use crate::given::{has_bits, same_point};
use crate::pattern;
use answers::Refusal;
use math::Point;

// The number of a refusal, or 0.
pub fn number_of(verdict: Result<(), Refusal>) -> u32
    ensures { result ≡ verdict_number verdict }
{
    match verdict {
        Ok(()) => 0,
        Err(refusal) => refusal.number(),
    }
}

// Whether a place or a direction was given with these bits and the refusal's number is 0, or it was refused under that number.
pub fn placed(found: Result<Point, Refusal>, due: u32, x: u32, y: u32) -> bool
    ensures { result ≡ placed_as found due x y }
{
    match found {
        Ok(p) => (due == 0) & same_point(p, x, y),
        Err(refusal) => refusal.number() == due,
    }
}

// The same of a heading.
pub fn turned(found: Result<f32, Refusal>, due: u32, degrees: u32) -> bool
    ensures { result ≡ turned_as found due degrees }
{
    match found {
        Ok(own) => (due == 0) & has_bits(own, degrees),
        Err(refusal) => refusal.number() == due,
    }
}

// Whether a place, a direction and a heading were given and have the five patterns from this offset on.
pub fn same_answers(
    position: Result<Point, Refusal>,
    tangent: Result<Point, Refusal>,
    heading: Result<f32, Refusal>,
    text: &[u8],
    at: usize,
) -> bool
    requires { at + 40 ≤ length text.now }
    ensures { result ≡ same_answers position tangent heading text.now at }
{
    let here = placed(position, 0, pattern(text, at), pattern(text, at + 8));
    let there = placed(tangent, 0, pattern(text, at + 16), pattern(text, at + 24));
    here & there & turned(heading, 0, pattern(text, at + 32))
}
