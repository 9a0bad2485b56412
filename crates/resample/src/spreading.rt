// The parts of `resample`, which a morph takes for each of its shapes: what to give, and giving it.
ghost use Rattle.std.specs.Prelude.{◌≡◌, ◌*◌, ◌≤◌, ◌<◌, length};
ghost use Rattle.answers.specs.Report.{written};
ghost use Rattle.polyline.specs.Points.{count_of, point_at, rows_of};
ghost use Rattle.resample.specs.Spacing.{spread_at, Spread};
ghost use Rattle.resample.specs.Planning.{plan_of, need_of, rows_by, Planned};

use crate::walking::{Stretch, advance, between, target_at};
use answers::Refusal;
use floats::EPSILON;
use polyline::inner::{measure, point_at, put_point};

// What the output gets: no points, the first point each time, or points evenly spaced along a line
// of this length.
#[derive(Clone, Copy)]
pub enum Way {
    Nothing,
    Copies,
    Spread(f32),
}

// What so many points of a line are, or where its running length stops being finite.
#[tactic(auto, unfolding(crate::specs::Planning::plan_of, crate::specs::Planning::by_length, floats::specs::Floats::epsilon_f))]
pub fn plan_for(points: &[f32], count: usize) -> Result<Way, Refusal>
    ensures { result ≡ plan_of points.now count }
{
    let given = points.len() / 2;
    if given == 0 || count == 0 {
        return Ok(Way::Nothing);
    }
    if given == 1 || count == 1 {
        return Ok(Way::Copies);
    }
    let total = measure(points)?;
    if total <= EPSILON {
        return Ok(Way::Copies);
    }
    Ok(Way::Spread(total))
}

// How many numbers that is.
pub fn needed(way: Way, count: usize) -> usize
    requires { count ≤ 4096 }
    ensures { result ≡ need_of way count }
{
    match way {
        Way::Nothing => 0,
        Way::Copies | Way::Spread(_) => 2 * count,
    }
}

// The first point, so many times.
fn copy(points: &[f32], count: usize, out: &mut [f32])
    requires points_nonzero { 0 < count_of points.now }
    requires count_in_bounds { 2 * count ≤ length out.old }
    ensures { out.new ≡ written (rows_of (λ i. point_at points.now 0) count) out.old }
{
    let first = point_at(points, 0);
    for i in 0..count {
        put_point(out, i, first);
    }
}

// The first point, evenly spaced ones, the last point.
fn spread(points: &[f32], count: usize, total: f32, out: &mut [f32])
    requires { Spread points.now count total (length out.old) }
    ensures { out.new ≡ written (rows_of (spread_at points.now total count) count) out.old }
{
    put_point(out, 0, point_at(points, 0));
    let last = count - 1;
    let mut stretch = Stretch {
        upper: 0,
        low: 0.0,
        high: 0.0,
    };
    for i in 1..last {
        let at = target_at(total, i, last);
        stretch = advance(points, stretch, at);
        put_point(out, i, between(points, stretch, at));
    }
    put_point(out, last, point_at(points, points.len() / 2 - 1));
}

// Puts what was planned into an output that has the room.
pub fn fill(points: &[f32], count: usize, way: Way, out: &mut [f32])
    requires { Planned points.now count way (length out.old) }
    ensures { out.new ≡ written (rows_by points.now count way) out.old }
{
    match way {
        Way::Nothing => {}
        Way::Copies => copy(points, count, out),
        Way::Spread(total) => spread(points, count, total, out),
    }
}
