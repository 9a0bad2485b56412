// The entry that makes a table.
ghost use Rattle.spline_table.specs.Tables.{SplineTable};

use crate::entries::{fill, first_not_finite, last_entry};
use answers::{Refusal, Values};

// Stores the running lengths of the spline through these points, two numbers each, from the start of `table`: 16 for each span and
// one more, or a single 0 below two points. How many entries that is; the last of them is the spline's length. The refusals are
// `BadList`, `Range`, `NotFinite` and `NoRoom`: one writes nothing, and what stands past the entries is left as it was.
#[tactic(auto, unfolding(crate::specs::Tables::spline_table_of, crate::specs::Tables::spline_lengths_of), using(crate::proofs::Answering::entries_count))]
pub fn spline_table(points: &[f32], table: &mut [f32]) -> Result<usize, Refusal>
    ensures { SplineTable points.now table.old result table.new }
{
    let count = points.len() / 2;
    if points.len() % 2 == 1 {
        return Err(Refusal::BadList(count));
    }
    if 4096 < count {
        return Err(Refusal::Range(count));
    }
    let last = last_entry(count);
    let first = first_not_finite(points, last);
    if first <= last {
        return Err(Refusal::NotFinite(first));
    }
    if table.len() <= last {
        return Err(Refusal::NoRoom(Values::One(last + 1)));
    }
    fill(points, last, table);
    Ok(last + 1)
}
