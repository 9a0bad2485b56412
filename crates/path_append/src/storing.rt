// A segment stored after those in use.
ghost use Rattle.std.specs.Prelude.{◌≡◌};
ghost use Rattle.path_stored.specs.Buffers.{after, before_mut, lent_mut};
ghost use Rattle.path_append.specs.Appending.{Room, stored_at};

use crate::used::{numbers_used, tables_used};
use floats::tidy;
use path_segment::inner::{put_segment, store_table};
use path_segment::{PathSegment, kind};
use table::inner::length_before;

// Stores a segment as number `count`, right after the numbers and tables of those before it.
pub(crate) fn store(
    kinds: &mut [u8],
    numbers: &mut [f32],
    tables: &mut [f32],
    lengths: &mut [f32],
    commands: &mut [u32],
    count: usize,
    command: u32,
    segment: PathSegment,
)
    requires { Room (lent_mut kinds numbers tables lengths commands) count segment }
    ensures { after kinds numbers tables lengths commands ≡ stored_at (before_mut kinds numbers tables lengths commands) count command segment }
{
    let n = numbers_used(kinds, count);
    let m = tables_used(kinds, count);
    let own = store_table(tables, m, segment);
    let before = length_before(lengths, count);
    put_segment(numbers, n, segment);
    kinds[count] = kind(segment);
    lengths[count] = tidy(before + own);
    commands[count] = command;
}
