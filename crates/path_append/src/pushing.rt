// Appending one segment.
ghost use Rattle.std.specs.Prelude.{◌≡◌, ◌≤◌, ◌<◌, length};
ghost use Rattle.path_stored.specs.Buffers.{after, before_mut};
ghost use Rattle.path_stored.specs.Paths.{held};
ghost use Rattle.path_stored.specs.Stored.{most_segments};
ghost use Rattle.path_append.specs.Appending.{may_turn, fitting_of, appended_of, Append};

use crate::storing::store;
use crate::used::{may_follow, numbers_used, tables_used};
use answers::{Refusal, Values};
use floats::is_finite;
use path_segment::{PathSegment, kind, segment_length, table_width, width};
use path_stored::PathBuffers;
use table::inner::length_before;

// Whether a segment's rotation may be taken. Only an arc that is no line fallback has one that may not.
fn may_turn(segment: PathSegment) -> bool
    ensures { result ≡ may_turn segment }
{
    match segment {
        PathSegment::Arc(shape) => is_finite(shape.x_axis_rotation),
        PathSegment::Line(_)
        | PathSegment::Quad { .. }
        | PathSegment::Cubic { .. }
        | PathSegment::Fallback(_) => true,
    }
}

// Whether the buffers have room for a segment after the first `count`, or how much they need.
#[tactic(auto, unfolding(crate::specs::Appending::fitting_of, crate::specs::Appending::has_room, crate::specs::Appending::needs_of))]
fn fitting(path: PathBuffers, count: usize, segment: PathSegment) -> Result<Values, Refusal>
    requires count_lt_most_segments { count < most_segments }
    requires count_in_bounds { count ≤ length path.kinds.now }
    ensures { result ≡ fitting_of (held path.entry) count segment }
{
    let own = kind(segment);
    let n = numbers_used(path.kinds, count) + width(own);
    let m = tables_used(path.kinds, count) + table_width(own);
    let needs = Values::Five(count + 1, n, m, count + 1, count + 1);
    if path.kinds.len() <= count
        || path.fields.len() < n
        || path.tables.len() < m
        || path.lengths.len() <= count
        || path.commands.len() <= count
    {
        return Err(Refusal::NoRoom(needs));
    }
    Ok(needs)
}

// What appending a segment after the first `count` answers: how many places of each buffer are in use then, or `BadPath`, `Range`,
// `RotationRange`, `NotFinite` or `NoRoom`.
#[tactic(auto, unfolding(crate::specs::Appending::appended_of, crate::specs::Appending::grown_of))]
fn judge(
    path: PathBuffers,
    count: usize,
    command: u32,
    segment: PathSegment,
) -> Result<Values, Refusal>
    ensures { result ≡ appended_of (held path.entry) count command segment }
{
    if !may_follow(path, count, command) {
        return Err(Refusal::BadPath);
    }
    if 65536 <= count {
        return Err(Refusal::Range(count + 1));
    }
    if !may_turn(segment) {
        return Err(Refusal::RotationRange(count));
    }
    if !is_finite(length_before(path.lengths, count) + segment_length(segment)) {
        return Err(Refusal::NotFinite(count));
    }
    fitting(path, count, segment)
}

// Appends a segment to the path that the first `count` segments are, as one that the command numbered `command` made. The tables are made
// anew from its numbers. Refused are, in this order: what is no stored path, a command number below the last, a count above 65,536, a
// rotation that is infinite or a NaN, a running length that is, too short a buffer. It answers how many places of each buffer are in use
// now: kinds, numbers, tables, lengths, commands.
pub fn push_segment(
    kinds: &mut [u8],
    numbers: &mut [f32],
    tables: &mut [f32],
    lengths: &mut [f32],
    commands: &mut [u32],
    count: usize,
    command: u32,
    segment: PathSegment,
) -> Result<Values, Refusal>
    ensures { Append (before_mut kinds numbers tables lengths commands) count command segment result (after kinds numbers tables lengths commands) }
{
    let path = PathBuffers {
        kinds,
        fields: numbers,
        tables,
        lengths,
        commands,
    };
    let in_use = judge(path, count, command, segment)?;
    store(
        kinds, numbers, tables, lengths, commands, count, command, segment,
    );
    Ok(in_use)
}
