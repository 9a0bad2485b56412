// How an entry that can refuse leaves through C: a number, and values in the lent answer.
ghost use Rattle.std.specs.Prelude.{[], ◌∷◌};
ghost use Rattle.answers.specs.Answers.{accepted, refused, listed};
ghost use Rattle.c_answer.specs.Given.{Given};

use answers::{Refusal, Values};

// An accepted call, with what it gives.
pub fn accept(values: Values, answer: &mut [u64]) -> u32
    ensures { Given (accepted (listed values)) answer.old result answer.new }
{
    answers::report(0, values, answer)
}

// An accepted call that gives six values. No refusal carries so many, so that they do not pass as `Values`.
pub fn accept_six(
    first: u64,
    second: u64,
    third: u64,
    fourth: u64,
    fifth: u64,
    sixth: u64,
    answer: &mut [u64],
) -> u32
    ensures { Given (accepted (first ∷ second ∷ third ∷ fourth ∷ fifth ∷ sixth ∷ [])) answer.old result answer.new }
{
    if answer.len() < 8 {
        return 255;
    }
    // Six stores: `copy_from_slice` is a memmove, which modules for 32-bit processors must not have (DECISIONS 222).
    answer[0] = first;
    answer[1] = second;
    answer[2] = third;
    answer[3] = fourth;
    answer[4] = fifth;
    answer[5] = sixth;
    0
}

// A refusal: its number, and what it carries.
pub fn refuse(refusal: Refusal, answer: &mut [u64]) -> u32
    ensures { Given (refused refusal) answer.old result answer.new }
{
    answers::report(refusal.number(), refusal.carried(), answer)
}
