// Numbers into a lent output, or the refusal and nothing there.
ghost use Rattle.std.specs.Prelude.{◌≤◌, ◌≡◌, length, Ok};
ghost use Rattle.answers.specs.Answers.{listed};
ghost use Rattle.answers.specs.Report.{written};
ghost use Rattle.c_output.specs.Filling.{Filled};

use answers::{Refusal, Values};
use floats::tidy;

// Puts the numbers at the start of out, and touches no other place. A NaN is stored as 7FC00000.
pub(crate) fn copy(numbers: &[f32], out: &mut [f32])
    requires { length numbers.now ≤ length out.old }
    ensures { out.new ≡ written numbers.now out.old }
{
    for (k, x) in numbers.iter().enumerate() {
        out[k] = tidy(*x);
    }
}

fn give(numbers: &[f32], values: Values, out: &mut [f32], answer: &mut [u64]) -> u32
    requires { 8 ≤ length answer.old }
    ensures { Filled (Ok tt) (listed values) numbers.now out.old answer.old result out.new answer.new }
{
    if out.len() < numbers.len() {
        let needed = numbers.len();
        return answers::report(8, Values::One(needed), answer);
    }
    copy(numbers, out);
    answers::report(0, values, answer)
}

// Puts the numbers at the start of out where the verdict accepts and there is room for them, and the
// values into answer. A refusal writes nothing to out: the verdict's own comes first, then the need of
// room. An answer of fewer than 8 places comes before both: 255, and nothing is written.
pub fn fill(
    verdict: Result<(), Refusal>,
    numbers: &[f32],
    values: Values,
    out: &mut [f32],
    answer: &mut [u64],
) -> u32
    ensures { Filled verdict (listed values) numbers.now out.old answer.old result out.new answer.new }
{
    if answer.len() < 8 {
        return 255;
    }
    match verdict {
        Ok(()) => give(numbers, values, out, answer),
        Err(refusal) => answers::report(refusal.number(), refusal.carried(), answer),
    }
}
