// The two passes over the samples of a spline whose points were judged: the first finds a length that is not finite, the second
// stores. Points near the origin have no such length, so that their samples are taken once.
ghost use Rattle.std.specs.Prelude.{◌≡◌, ◌≤◌};
ghost use Rattle.answers.specs.Report.{written};
ghost use Rattle.table_samples.specs.Samples.{lengths_of};
ghost use Rattle.polyline.specs.Lengths.{first_not_finite};
ghost use Rattle.spline.specs.Formula.{spline_sample_of};
ghost use Rattle.spline_table.specs.Tables.{last_entry_of, most_points, Sampled, Roomy};
ghost use Rattle.spline_table.specs.Near.{all_near};

use crate::rows::{Walk, fill_row};
use floats::is_finite;
use math::distance;
use path_bounds::is_near;
use spline::inner::sample;
use table::inner::mark;

// The number of the last entry: 16 entries for each span, one span fewer than points.
pub fn last_entry(count: usize) -> usize
    requires { count ≤ most_points }
    ensures { result ≡ last_entry_of count }
{
    if count == 0 {
        return 0;
    }
    16 * (count - 1)
}

// Whether every number is at most 2^40 in size. A NaN is not.
fn all_near(numbers: &[f32]) -> bool
    ensures { result ≡ all_near numbers.now }
{
    let mut near = true;
    for &number in numbers {
        near = near & is_near(number);
    }
    near
}

// The number of the first entry that is infinite or a NaN, or how many entries there are where none is. Points near the origin
// need no sample for that.
pub fn first_not_finite(points: &[f32], last: usize) -> usize
    requires { Sampled points.now last }
    ensures { result ≡ first_not_finite (lengths_of (spline_sample_of points.now) last) }
{
    if all_near(points) {
        return last + 1;
    }
    first_measured(points, last)
}

// The same by the samples.
fn first_measured(points: &[f32], last: usize) -> usize
    requires { Sampled points.now last }
    ensures { result ≡ first_not_finite (lengths_of (spline_sample_of points.now) last) }
{
    let mut previous = sample(points, mark(0, last));
    let mut total = 0.0f32;
    for k in 0..last {
        let current = sample(points, mark(k + 1, last));
        total = total + distance(previous, current);
        if !is_finite(total) {
            return k + 1;
        }
        previous = current;
    }
    last + 1
}

// Stores the running lengths of the samples from the start of `table`: a row of 16 for each span, and the last.
pub fn fill(points: &[f32], last: usize, table: &mut [f32])
    requires { Roomy points.now last table.old }
    ensures { table.new ≡ written (lengths_of (spline_sample_of points.now) last) table.old }
{
    let mut walk = Walk {
        previous: sample(points, mark(0, last)),
        total: 0.0,
    };
    for span in 0..last / 16 {
        walk = fill_row(points, last, 16 * span, walk, table);
    }
    table[last] = walk.total;
}
