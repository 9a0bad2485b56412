// Making a morph: two shapes resampled to as many points each.
ghost use Rattle.std.specs.Prelude.{◌≡◌, ◌≤◌, length};
ghost use Rattle.morph.specs.Morph.{resolved, larger_of, default_of, MorphInto};

use answers::{Refusal, Values};
use polyline::judge_two;
use resample::inner::{fill, needed, plan_for};

// How many places of each output the shapes are put into, two for each point.
#[derive(Clone, Copy, Debug, PartialEq, Eq)]
pub struct Morphed {
    pub from: usize,
    pub to: usize,
}

// At least two.
fn at_least_two(resolution: usize) -> usize
    ensures { result ≡ resolved resolution }
{
    resolution.max(2)
}

// The points of the larger shape.
#[tactic(auto, unfolding(crate::specs::Morph::larger_of))]
fn larger(from: &[f32], to: &[f32]) -> usize
    ensures { result ≡ larger_of from.now to.now }
{
    (from.len() / 2).max(to.len() / 2)
}

// The resolution where none is stated: 128, or the larger shape's count if that is more.
#[tactic(auto, unfolding(crate::specs::Morph::default_of))]
fn default_resolution(from: &[f32], to: &[f32]) -> usize
    ensures { result ≡ default_of from.now to.now }
{
    larger(from, to).max(128)
}

// The two shapes of a morph with this resolution, at least two points: `from` resampled into the first
// output, `to` into the second. A refusal writes nothing.
#[tactic(auto, unfolding(crate::specs::Morph::morph_of, crate::specs::Morph::plans_of))]
pub fn morph(
    from: &[f32],
    to: &[f32],
    resolution: usize,
    out_from: &mut [f32],
    out_to: &mut [f32],
) -> Result<Morphed, Refusal>
    ensures { MorphInto from.now to.now (resolved resolution) out_from out_to result }
{
    judge_two(from, to)?;
    let count = at_least_two(resolution);
    if 4096 < count {
        return Err(Refusal::Range(count));
    }
    let first = plan_for(from, count)?;
    let second = plan_for(to, count)?;
    let places = needed(first, count);
    let others = needed(second, count);
    if out_from.len() < places || out_to.len() < others {
        return Err(Refusal::NoRoom(Values::Two(places, others)));
    }
    fill(from, count, first, out_from);
    fill(to, count, second, out_to);
    Ok(Morphed {
        from: places,
        to: others,
    })
}

// The same with 128 points, or as many as the larger shape has if that is more.
#[tactic(auto, using(crate::proofs::Sharing::default_stated))]
pub fn morph_default(
    from: &[f32],
    to: &[f32],
    out_from: &mut [f32],
    out_to: &mut [f32],
) -> Result<Morphed, Refusal>
    ensures { MorphInto from.now to.now (default_of from.now to.now) out_from out_to result }
{
    morph(from, to, default_resolution(from, to), out_from, out_to)
}
