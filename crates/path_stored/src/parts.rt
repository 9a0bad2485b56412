// What is read of a stored path, for callers that know it to be one.
ghost use Rattle.std.specs.Prelude.{◌≡◌, ◌≤◌, ◌<◌, length};
ghost use Rattle.table.specs.Spots.{path_total};
ghost use Rattle.path_segment.specs.Segments.{width_of, tables_of};
ghost use Rattle.path_stored.specs.Stored.{before, most_segments, Fielded, Tabled, segment_in, table_in};

use crate::counts::{fields_between, tables_between};
use crate::paths::StoredPath;
use arc::no_table;
use floats::tidy;
use path_segment::inner::{segment_at, table_at};
use path_segment::{PathSegment, has_table};
use table::Table;
use table::inner::length_before;

// How many fields stand before those of segment i.
pub fn fields_before(kinds: &[u8], i: usize) -> usize
    requires kinds_len_bound { length kinds.now ≤ most_segments }
    requires i_in_bounds { i ≤ length kinds.now }
    ensures { result ≡ before width_of kinds.now i }
{
    fields_between(kinds, 0, i)
}

// How many tables stand before that of segment i.
pub fn tables_before(kinds: &[u8], i: usize) -> usize
    requires kinds_len_bound { length kinds.now ≤ most_segments }
    requires i_in_bounds { i ≤ length kinds.now }
    ensures { result ≡ before tables_of kinds.now i }
{
    tables_between(kinds, 0, i)
}

// Segment i.
#[tactic(auto, unfolding(crate::specs::Stored::segment_in))]
pub fn segment(kinds: &[u8], fields: &[f32], i: usize) -> PathSegment
    requires fielded { Fielded kinds.now fields.now }
    requires i_in_bounds { i < length kinds.now }
    ensures { result ≡ segment_in kinds.now fields.now i }
{
    let at = fields_before(kinds, i);
    segment_at(kinds[i], fields, at)
}

// Its table, which is sound. What stands for the table of a line and of a line fallback is not.
#[tactic(auto, unfolding(crate::specs::Stored::table_in))]
pub fn segment_table(kinds: &[u8], tables: &[f32], i: usize) -> Table
    requires tabled { Tabled kinds.now tables.now }
    requires i_in_bounds { i < length kinds.now }
    ensures { result ≡ table_in kinds.now tables.now i }
{
    if has_table(kinds[i]) {
        let n = tables_before(kinds, i);
        return table_at(tables, 33 * n);
    }
    no_table()
}

impl<'a> StoredPath<'a> {
    // Segment i of the path.
    pub fn segment(self, i: usize) -> PathSegment
        requires { i < length self.buffers.kinds.now }
        ensures { result ≡ segment_in self.entry.buffers.kinds.now self.entry.buffers.fields.now i }
    {
        let path = self.buffers;
        segment(path.kinds, path.fields, i)
    }

    // Its table.
    pub fn segment_table(self, i: usize) -> Table
        requires { i < length self.buffers.kinds.now }
        ensures { result ≡ table_in self.entry.buffers.kinds.now self.entry.buffers.tables.now i }
    {
        let path = self.buffers;
        segment_table(path.kinds, path.tables, i)
    }
}

// How long a path is: its last running length, or 0 without a segment.
#[tactic(auto, unfolding(table::specs::Spots::path_total))]
pub fn total(lengths: &[f32]) -> f32
    ensures { result ≡ path_total lengths.now }
{
    let count = lengths.len();
    tidy(length_before(lengths, count))
}
