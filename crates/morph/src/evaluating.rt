// The shape between two shapes, put into an output.
ghost use Rattle.std.specs.Prelude.{◌≡◌, ◌*◌, ◌≤◌, length};
ghost use Rattle.answers.specs.Report.{written};
ghost use Rattle.polyline.specs.Points.{rows_of};
ghost use Rattle.morph.specs.Shapes.{shared_of, between_at, numbers_between, any_nan};
ghost use Rattle.morph.specs.Evaluate.{Evaluate};

use crate::between::{progress, shared};
use answers::{Refusal, Values};
use floats::tidy;
use math::lerp;
use polyline::judge_two;

// The numbers of the shape between, two for each point, each NaN in the pattern that the processor
// gives it. Whether there is one. There are as many past the middle as before it: each step puts one
// of each half, so that one test of two lanes asks for both.
#[tactic(auto, using(crate::proofs::Sharing::shared_upto, crate::proofs::Sharing::shared_upto_second))]
fn put_numbers(from: &[f32], to: &[f32], along: f32, out: &mut [f32]) -> bool
    requires { 2 * shared_of from.now to.now ≤ length out.old }
    ensures answer { result ≡ any_nan (numbers_between from.now to.now along) }
    ensures memory { out.new ≡ written (numbers_between from.now to.now along) out.old }
{
    let half = shared(from, to);
    let mut any = false;
    for j in 0..half {
        let low = lerp(from[j], to[j], along);
        let high = lerp(from[half + j], to[half + j], along);
        out[j] = low;
        out[half + j] = high;
        any = any | (low != low) | (high != high);
    }
    any
}

// The same numbers, each NaN in the one pattern.
fn tidy_numbers(numbers: &mut [f32])
    ensures { numbers.new ≡ numbers.old }
{
    for number in numbers {
        *number = tidy(*number);
    }
}

// Every point of the shape between. A second pass tidies the numbers, where one is a NaN: in the first
// it would cost each number as much as the arithmetic.
fn fill_between(from: &[f32], to: &[f32], along: f32, out: &mut [f32])
    requires { 2 * shared_of from.now to.now ≤ length out.old }
    ensures { out.new ≡ written (rows_of (between_at from.now to.now along) (shared_of from.now to.now)) out.old }
{
    if put_numbers(from, to, along, out) {
        tidy_numbers(&mut out[..2 * shared(from, to)]);
    }
}

// The shape at the progress t, from the output's start, of as many points as both shapes have: how many
// places they take, two for each. A refusal writes nothing, and what stands past the counted places is
// left as it was.
#[tactic(auto, unfolding(crate::specs::Evaluate::evaluate_of, crate::specs::Evaluate::shape_of), using(crate::proofs::Answers::between_length, crate::proofs::Sharing::shared_upto))]
pub fn evaluate(from: &[f32], to: &[f32], t: f32, out: &mut [f32]) -> Result<usize, Refusal>
    ensures { Evaluate from.now to.now t out.old result out.new }
{
    judge_two(from, to)?;
    let need = 2 * shared(from, to);
    if out.len() < need {
        return Err(Refusal::NoRoom(Values::One(need)));
    }
    fill_between(from, to, progress(t), out);
    Ok(need)
}
