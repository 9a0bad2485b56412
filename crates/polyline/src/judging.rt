// Point lists judged: an odd count of numbers, then more than 4,096 points.
ghost use Rattle.std.specs.Prelude.{◌≡◌};
ghost use Rattle.polyline.specs.Judging.{is_odd, is_long, judge_of, judge_two_of};

use answers::Refusal;

fn is_odd(points: &[f32]) -> bool
    ensures { result ≡ is_odd points.now }
{
    points.len() % 2 == 1
}

fn is_long(points: &[f32]) -> bool
    ensures { result ≡ is_long points.now }
{
    4096 < points.len() / 2
}

// One list.
#[tactic(auto, unfolding(crate::specs::Judging::judge_of))]
pub fn judge(points: &[f32]) -> Result<(), Refusal>
    ensures { result ≡ judge_of points.now }
{
    if is_odd(points) {
        return Err(Refusal::BadList(points.len() / 2));
    }
    if is_long(points) {
        return Err(Refusal::Range(points.len() / 2));
    }
    Ok(())
}

// Two lists: each step judges the first, then the second.
#[tactic(auto, unfolding(crate::specs::Judging::judge_two_of))]
pub fn judge_two(first: &[f32], second: &[f32]) -> Result<(), Refusal>
    ensures { result ≡ judge_two_of first.now second.now }
{
    if is_odd(first) {
        return Err(Refusal::BadList(first.len() / 2));
    }
    if is_odd(second) {
        return Err(Refusal::BadList(second.len() / 2));
    }
    if is_long(first) {
        return Err(Refusal::Range(first.len() / 2));
    }
    if is_long(second) {
        return Err(Refusal::Range(second.len() / 2));
    }
    Ok(())
}
