// A place and a heading, found or refused.
ghost use Rattle.c_answer.specs.Given.{Given};
ghost use Rattle.c_answer.specs.Places.{place_given, turn_given};

use answers::{Refusal, Values};
use floats::bits;
use math::Point;

// The bits of x and of y.
pub fn give_place(placed: Result<Point, Refusal>, answer: &mut [u64]) -> u32
    ensures { Given (place_given placed) answer.old result answer.new }
{
    match placed {
        Ok(p) => crate::given::accept(Values::Two(bits(p.x) as usize, bits(p.y) as usize), answer),
        Err(refusal) => crate::given::refuse(refusal, answer),
    }
}

// The bits of the degrees.
pub fn give_turn(turned: Result<f32, Refusal>, answer: &mut [u64]) -> u32
    ensures { Given (turn_given turned) answer.old result answer.new }
{
    match turned {
        Ok(degrees) => crate::given::accept(Values::One(bits(degrees) as usize), answer),
        Err(refusal) => crate::given::refuse(refusal, answer),
    }
}
