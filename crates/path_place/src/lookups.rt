// The lookups without their tests, for callers that know the path to be a stored one.
ghost use Rattle.std.specs.Prelude.{◌≡◌, T};
ghost use Rattle.path_segment.specs.Segments.{has_table};
ghost use Rattle.path_place.specs.Cursors.{Moving, cursor_of};
ghost use Rattle.path_place.specs.Places.{Standing, TableThere, raw_for, raw_in, raw_within};

use crate::cursors::{Cursor, back, forward};
use path_segment::has_table;
use table::inner::raw_parameter_in;
use table::{Progress, RawParameter};

// The raw parameter of a local progress in the table whose first entry is at `first`.
pub fn raw_in(tables: &[f32], first: usize, along: Progress) -> RawParameter
    requires { TableThere tables.now first }
    ensures { result.value ≡ raw_in tables.now first along.value }
{
    let end = first + 32;
    let total = tables[end];
    raw_parameter_in(&tables[first..end], total, along)
}

// The raw parameter of a local progress on a segment of a kind, whose table starts at `first`, if it
// has one. A line and an arc that fell back to one are looked up in a single 0.
#[tactic(auto, unfolding(crate::specs::Places::raw_for))]
pub fn raw_for(kind: u8, tables: &[f32], first: usize, along: Progress) -> RawParameter
    requires { T (has_table kind) → TableThere tables.now first }
    ensures { result.value ≡ raw_for kind tables.now first along.value }
{
    if has_table(kind) {
        return raw_in(tables, first, along);
    }
    let single = [0.0f32; 1];
    raw_parameter_in(&single, 0.0, along)
}

// The raw parameter of a local progress on the segment at which a cursor stands.
pub fn raw_within(kinds: &[u8], tables: &[f32], at: Cursor, along: Progress) -> RawParameter
    requires { Standing kinds.now tables.now at }
    ensures { result.value ≡ raw_within kinds.now tables.now at.segment along.value }
{
    let segment = at.segment;
    raw_for(kinds[segment], tables, at.tables, along)
}

// From a cursor to a segment before or after it.
pub fn moved(kinds: &[u8], from: Cursor, segment: usize) -> Cursor
    requires { Moving kinds.now from segment }
    ensures { result ≡ cursor_of kinds.now segment }
{
    if from.segment <= segment {
        return forward(kinds, from, segment);
    }
    back(kinds, from, segment)
}
