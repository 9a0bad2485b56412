// A row of 16 entries, one span. Its samples are taken and its steps measured together, so that the compiler works out several at once.
ghost use Rattle.std.specs.Prelude.{◌≡◌, ◌+◌, ◌≤◌};
ghost use Rattle.polyline.specs.Points.{count_of};
ghost use Rattle.table_samples.specs.Samples.{lengths_of};
ghost use Rattle.spline.specs.Formula.{spline_sample_of};
ghost use Rattle.spline_table.specs.Rows.{Walking, Ahead, Roomed, Differences, Grown};

use crate::lanes::{all_between, clamped_marks, differences_of, leg_samples, scaled, span_samples};
use lengths::inner::half_lengths;
use math::Point;
use polyline::inner::point_at;
use spline::inner::{after_span, before_span, sample};
use table::inner::mark;

// How far a pass has come: the sample made last, and the running length at it.
#[derive(Clone, Copy)]
pub(crate) struct Walk {
    pub previous: Point,
    pub total: f32,
}

// The differences of both coordinates from each of 16 samples to the next, and the sample after them. Nothing reads the other half
// of a row.
#[derive(Clone, Copy)]
struct Row {
    x: [f32; 32],
    y: [f32; 32],
    next: Point,
}

// The row from sample k on, which is `first`, each sample found anew.
fn one_by_one(points: &[f32], last: usize, k: usize, first: Point) -> Row
    requires { Ahead points.now last first k }
    ensures { Differences (spline_sample_of points.now) last k result }
{
    let mut x = [1.0f32; 32];
    let mut y = [1.0f32; 32];
    let mut previous = first;
    for i in 0..16 {
        let next = sample(points, mark(k + i + 1, last));
        x[i] = next.x - previous.x;
        y[i] = next.y - previous.y;
        previous = next;
    }
    Row {
        x,
        y,
        next: previous,
    }
}

// The row of two points.
fn leg_row(points: &[f32], last: usize, k: usize, first: Point) -> Row
    requires ahead { Ahead points.now last first k }
    requires points_value { count_of points.now ≡ 2 }
    ensures { Differences (spline_sample_of points.now) last k result }
{
    let next = sample(points, mark(k + 16, last));
    let own = clamped_marks(last, k);
    let a = point_at(points, 0);
    let b = point_at(points, 1);
    let across = leg_samples(a.x, b.x, first.x, next.x, &own);
    let along = leg_samples(a.y, b.y, first.y, next.y, &own);
    let x = differences_of(&across);
    let y = differences_of(&along);
    Row { x, y, next }
}

// The row of a span between three points or more. Only where it starts and ends can rounding put a sample into another span, and those
// two are found anew; if another did, all would be.
fn span_row(points: &[f32], last: usize, k: usize, first: Point) -> Row
    requires ahead { Ahead points.now last first k }
    requires bound { 3 ≤ count_of points.now }
    ensures { Differences (spline_sample_of points.now) last k result }
{
    let index = k / 16;
    let low = (index as u16) as f32;
    let high = ((index + 1) as u16) as f32;
    let clamped = clamped_marks(last, k);
    let own = scaled(&clamped, points.len() / 2 - 1, low);
    if !all_between(&own, low, high) {
        return one_by_one(points, last, k, first);
    }
    let next = sample(points, mark(k + 16, last));
    let p0 = before_span(points, index);
    let p1 = point_at(points, index);
    let p2 = point_at(points, index + 1);
    let p3 = after_span(points, index);
    let across = span_samples(p0.x, p1.x, p2.x, p3.x, low, first.x, next.x, &own);
    let along = span_samples(p0.y, p1.y, p2.y, p3.y, low, first.y, next.y, &own);
    let x = differences_of(&across);
    let y = differences_of(&along);
    Row { x, y, next }
}

// The row from sample k on, by the number of points.
fn differences(points: &[f32], last: usize, k: usize, first: Point) -> Row
    requires { Ahead points.now last first k }
    ensures { Differences (spline_sample_of points.now) last k result }
{
    if points.len() / 2 == 2 {
        return leg_row(points, last, k, first);
    }
    span_row(points, last, k, first)
}

// Stores the entries number k to k + 15 and goes on to the sample k + 16.
pub(crate) fn fill_row(points: &[f32], last: usize, k: usize, walk: Walk, table: &mut [f32]) -> Walk
    requires { Roomed points.now last walk k table.old }
    ensures walked { Walking (spline_sample_of points.now) last result (k + 16) }
    ensures stored { Grown (lengths_of (spline_sample_of points.now) last) k (k + 16) table.old table.new }
{
    let first = walk.previous;
    let row = differences(points, last, k, first);
    let x = row.x;
    let y = row.y;
    let previous = row.next;
    let steps = half_lengths(&x, &y);
    let mut total = walk.total;
    for i in 0..16 {
        table[k + i] = total;
        total = total + steps[i];
    }
    Walk { previous, total }
}
