// The check of a stored spline.
ghost use Rattle.std.specs.Prelude.{◌≡◌};
ghost use Rattle.spline_query.specs.Queries.{spline_is_sound};

use spline_table::inner::last_entry;
use table::entries_are_sound;

// Whether the points are an even list of at most 4,096, and the table has 16 entries for each span and one more, starts at 0, is
// finite and never falls.
#[tactic(auto, unfolding(crate::specs::Queries::spline_is_sound))]
pub fn spline_is_sound(points: &[f32], table: &[f32]) -> bool
    ensures { result ≡ spline_is_sound points.now table.now }
{
    if points.len() % 2 == 1 {
        return false;
    }
    let count = points.len() / 2;
    if 4096 < count {
        return false;
    }
    let last = last_entry(count);
    table.len() == last + 1 && entries_are_sound(table, table[last])
}
