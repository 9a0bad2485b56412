// A walk over the kinds of a path, which keeps where the next segment's fields and table stand.
ghost use Rattle.std.specs.Prelude.{◌≡◌, ◌≤◌, length};
ghost use Rattle.path_stored.specs.Stored.{most_segments};
ghost use Rattle.path_place.specs.Cursors.{Backward, Onward, cursor_of};

use path_segment::{table_width, width};
use path_stored::inner::{fields_before, tables_before};

// A segment, counted from 0, and how many numbers the segments before it have in each buffer.
#[derive(Clone, Copy)]
pub struct Cursor {
    pub segment: usize,
    pub fields: usize,
    pub tables: usize,
}

// The first segment.
pub fn first_cursor(kinds: &[u8]) -> Cursor
    ensures { result ≡ cursor_of kinds.now 0 }
{
    Cursor {
        segment: 0,
        fields: 0,
        tables: 0,
    }
}

// A segment, by counting all that stands before it.
#[tactic(auto, unfolding(crate::specs::Cursors::cursor_of))]
pub fn cursor_at(kinds: &[u8], segment: usize) -> Cursor
    requires kinds_len_bound { length kinds.now ≤ most_segments }
    requires segment_in_bounds { segment ≤ length kinds.now }
    ensures { result ≡ cursor_of kinds.now segment }
{
    Cursor {
        segment,
        fields: fields_before(kinds, segment),
        tables: 33 * tables_before(kinds, segment),
    }
}

// From a segment on to a later one.
pub fn forward(kinds: &[u8], from: Cursor, segment: usize) -> Cursor
    requires { Onward kinds.now from segment }
    ensures { result ≡ cursor_of kinds.now segment }
{
    let mut fields = from.fields;
    let mut tables = from.tables;
    for at in from.segment..segment {
        let kind = kinds[at];
        fields += width(kind);
        tables += table_width(kind);
    }
    Cursor {
        segment,
        fields,
        tables,
    }
}

// From a segment back to an earlier one. One walk over either direction would choose at each step between a sum and a difference.
pub fn back(kinds: &[u8], from: Cursor, segment: usize) -> Cursor
    requires { Backward kinds.now from segment }
    ensures { result ≡ cursor_of kinds.now segment }
{
    let mut fields = from.fields;
    let mut tables = from.tables;
    for at in (segment..from.segment).rev() {
        let kind = kinds[at];
        fields -= width(kind);
        tables -= table_width(kind);
    }
    Cursor {
        segment,
        fields,
        tables,
    }
}
