// The exports of kihavute_paths::morphs.
ghost use Rattle.c_answer.specs.Given.{Given};
ghost use Rattle.kihavute_paths.specs.Morphs.{Put, PutMorph, bounds_given};
ghost use Rattle.std.specs.Prelude.{length};
ghost use Rattle.resample.specs.Resample.{resample_of};
ghost use Rattle.morph.specs.Evaluate.{evaluate_of};
ghost use Rattle.morph.specs.Bounds.{bounded_of};
ghost use Rattle.morph.specs.Morph.{resolved, default_of};
ghost use Rattle.resample_order.specs.Ordered.{InOrderBy};

// So many points, evenly spaced along the line through the given ones.
#[unsafe(no_mangle)]
pub extern "C" fn kihavute_resample(
    points: &[f32],
    count: usize,
    out: &mut [f32],
    answer: &mut [u64],
) -> u32
    ensures put { Put (resample_of points.now count (length out.old)) out.old answer.old result out.new answer.new }
    ensures in_order_by { InOrderBy points.now count result out.new }
{
    kihavute_paths::morphs::kihavute_resample(points, count, out, answer)
}

// The two shapes of a morph, each resampled to this many points, at least 2.
#[unsafe(no_mangle)]
pub extern "C" fn kihavute_morph(
    from: &[f32],
    to: &[f32],
    resolution: usize,
    out_from: &mut [f32],
    out_to: &mut [f32],
    answer: &mut [u64],
) -> u32
    ensures put_morph { PutMorph from.now to.now (resolved resolution) out_from out_to answer result }
    ensures in_order_by { InOrderBy from.now (resolved resolution) result out_from.new × InOrderBy to.now (resolved resolution) result out_to.new }
{
    kihavute_paths::morphs::kihavute_morph(from, to, resolution, out_from, out_to, answer)
}

// The same with max(128, n) points, where n is the count of points of the larger shape.
#[unsafe(no_mangle)]
pub extern "C" fn kihavute_morph_default(
    from: &[f32],
    to: &[f32],
    out_from: &mut [f32],
    out_to: &mut [f32],
    answer: &mut [u64],
) -> u32
    ensures put_morph { PutMorph from.now to.now (default_of from.now to.now) out_from out_to answer result }
    ensures in_order_by { InOrderBy from.now (default_of from.now to.now) result out_from.new
        × InOrderBy to.now (default_of from.now to.now) result out_to.new }
{
    kihavute_paths::morphs::kihavute_morph_default(from, to, out_from, out_to, answer)
}

// The shape between two shapes at a progress.
#[unsafe(no_mangle)]
pub extern "C" fn kihavute_evaluate(
    from: &[f32],
    to: &[f32],
    t: f32,
    out: &mut [f32],
    answer: &mut [u64],
) -> u32
    ensures { Put (evaluate_of from.now to.now t (length out.old)) out.old answer.old result out.new answer.new }
{
    kihavute_paths::morphs::kihavute_evaluate(from, to, t, out, answer)
}

// The bits of the bounds of the shape between two shapes at a progress.
#[unsafe(no_mangle)]
pub extern "C" fn kihavute_bounds(from: &[f32], to: &[f32], t: f32, answer: &mut [u64]) -> u32
    ensures { Given (bounds_given (bounded_of from.now to.now t)) answer.old result answer.new }
{
    kihavute_paths::morphs::kihavute_bounds(from, to, t, answer)
}
