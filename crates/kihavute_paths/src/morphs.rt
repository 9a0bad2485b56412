// Shapes: a line with evenly spaced points, two shapes resampled for a morph, the shape between them
// and its bounds. A short answer is judged first, so that nothing is written then.
ghost use Rattle.c_answer.specs.Given.{Given};
ghost use Rattle.kihavute_paths.specs.Morphs.{Put, PutMorph, morphed_given, bounds_given};
ghost use Rattle.std.specs.Prelude.{length};
ghost use Rattle.resample.specs.Resample.{resample_of};
ghost use Rattle.morph.specs.Evaluate.{evaluate_of};
ghost use Rattle.morph.specs.Bounds.{bounded_of};
ghost use Rattle.morph.specs.Morph.{resolved, default_of};
ghost use Rattle.resample_order.specs.Ordered.{InOrderBy};

use answers::{Refusal, Values};
use c_answer::give_count;
use floats::bits;
use morph::{Bounds, Morphed};

// So many points, evenly spaced along the line through the given ones.
#[unsafe(no_mangle)]
pub extern "C" fn kihavute_resample(
    points: &[f32],
    count: usize,
    out: &mut [f32],
    answer: &mut [u64],
) -> u32
    ensures put { Put (resample_of points.now count (length out.old)) out.old answer.old result out.new answer.new }
    ensures in_order_by { InOrderBy points.now count result out.new }
{
    if answer.len() < 8 {
        return 255;
    }
    give_count(resample::resample(points, count, out), answer)
}

// What a morph's making gives.
fn give_morphed(morphed: Result<Morphed, Refusal>, answer: &mut [u64]) -> u32
    ensures { Given (morphed_given morphed) answer.old result answer.new }
{
    match morphed {
        Ok(numbers) => c_answer::accept(Values::Two(numbers.from, numbers.to), answer),
        Err(refusal) => c_answer::refuse(refusal, answer),
    }
}

// The two shapes of a morph, each resampled to this many points, at least 2.
#[unsafe(no_mangle)]
pub extern "C" fn kihavute_morph(
    from: &[f32],
    to: &[f32],
    resolution: usize,
    out_from: &mut [f32],
    out_to: &mut [f32],
    answer: &mut [u64],
) -> u32
    ensures put_morph { PutMorph from.now to.now (resolved resolution) out_from out_to answer result }
    ensures in_order_by { InOrderBy from.now (resolved resolution) result out_from.new × InOrderBy to.now (resolved resolution) result out_to.new }
{
    if answer.len() < 8 {
        return 255;
    }
    let morphed = morph::morph(from, to, resolution, out_from, out_to);
    give_morphed(morphed, answer)
}

// The same with max(128, n) points, where n is the count of points of the larger shape.
#[unsafe(no_mangle)]
pub extern "C" fn kihavute_morph_default(
    from: &[f32],
    to: &[f32],
    out_from: &mut [f32],
    out_to: &mut [f32],
    answer: &mut [u64],
) -> u32
    ensures put_morph { PutMorph from.now to.now (default_of from.now to.now) out_from out_to answer result }
    ensures in_order_by { InOrderBy from.now (default_of from.now to.now) result out_from.new
        × InOrderBy to.now (default_of from.now to.now) result out_to.new }
{
    if answer.len() < 8 {
        return 255;
    }
    let morphed = morph::morph_default(from, to, out_from, out_to);
    give_morphed(morphed, answer)
}

// The shape between two shapes at a progress.
#[unsafe(no_mangle)]
pub extern "C" fn kihavute_evaluate(
    from: &[f32],
    to: &[f32],
    t: f32,
    out: &mut [f32],
    answer: &mut [u64],
) -> u32
    ensures { Put (evaluate_of from.now to.now t (length out.old)) out.old answer.old result out.new answer.new }
{
    if answer.len() < 8 {
        return 255;
    }
    give_count(morph::evaluate(from, to, t, out), answer)
}

// What bounds give: their bits.
fn give_bounds(bounded: Result<Bounds, Refusal>, answer: &mut [u64]) -> u32
    ensures { Given (bounds_given bounded) answer.old result answer.new }
{
    match bounded {
        Ok(bounds) => c_answer::accept(
            Values::Four(
                bits(bounds.min_x) as usize,
                bits(bounds.min_y) as usize,
                bits(bounds.max_x) as usize,
                bits(bounds.max_y) as usize,
            ),
            answer,
        ),
        Err(refusal) => c_answer::refuse(refusal, answer),
    }
}

// The bits of the bounds of the shape between two shapes at a progress.
#[unsafe(no_mangle)]
pub extern "C" fn kihavute_bounds(from: &[f32], to: &[f32], t: f32, answer: &mut [u64]) -> u32
    ensures { Given (bounds_given (bounded_of from.now to.now t)) answer.old result answer.new }
{
    let bounded = morph::bounds_at(from, to, t);
    give_bounds(bounded, answer)
}
