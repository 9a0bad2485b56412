// How much was written or looked up, or the refusal.
ghost use Rattle.c_answer.specs.Given.{Given};
ghost use Rattle.c_answer.specs.Counts.{count_given};

use answers::{Refusal, Values};

// The count.
pub fn give_count(counted: Result<usize, Refusal>, answer: &mut [u64]) -> u32
    ensures { Given (count_given counted) answer.old result answer.new }
{
    match counted {
        Ok(count) => crate::given::accept(Values::One(count), answer),
        Err(refusal) => crate::given::refuse(refusal, answer),
    }
}
