// The entry.
ghost use Rattle.std.specs.Prelude.{length};
ghost use Rattle.resample.specs.Resample.{Resample};

use crate::spreading::{fill, needed, plan_for};
use answers::{Refusal, Values};
use polyline::judge;

// So many points, evenly spaced along the line through the given ones, from the output's start: how many
// places they take, two for each. A refusal writes nothing, and what stands past the counted places is
// left as it was.
#[tactic(auto, unfolding(crate::specs::Resample::resample_of), using(crate::proofs::Plans::need_is))]
pub fn resample(points: &[f32], count: usize, out: &mut [f32]) -> Result<usize, Refusal>
    ensures { Resample points.now count out.old result out.new }
{
    judge(points)?;
    if 4096 < count {
        return Err(Refusal::Range(count));
    }
    let way = plan_for(points, count)?;
    let need = needed(way, count);
    if out.len() < need {
        return Err(Refusal::NoRoom(Values::One(need)));
    }
    fill(points, count, way, out);
    Ok(need)
}
