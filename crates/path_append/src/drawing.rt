// The segments by their points. Each is appended after the first `count` segments, as one that the command with this number made, with
// the refusals of `push_segment`.
ghost use Rattle.std.specs.Prelude.{◌≡◌};
ghost use Rattle.arc.specs.Lines.{line_of};
ghost use Rattle.path_stored.specs.Buffers.{after, before_mut};
ghost use Rattle.path_append.specs.Appending.{Append, arc_segment};

use crate::pushing::push_segment;
use answers::{Refusal, Values};
use arc::{LineSegment, fallback_shape, is_fallback};
use ellipse::{Chord, from_ends};
use math::Point;
use path_segment::PathSegment;

// Appends the line from start to end.
pub fn line_to(
    kinds: &mut [u8],
    numbers: &mut [f32],
    tables: &mut [f32],
    lengths: &mut [f32],
    commands: &mut [u32],
    count: usize,
    command: u32,
    start: Point,
    end: Point,
) -> Result<Values, Refusal>
    ensures { Append (before_mut kinds numbers tables lengths commands) count command (PathSegment.Line (line_of start end)) result (after kinds numbers tables lengths commands) }
{
    let segment = PathSegment::Line(LineSegment { start, end });
    push_segment(
        kinds, numbers, tables, lengths, commands, count, command, segment,
    )
}

// Appends the quad from start to end, drawn towards control.
pub fn quad_to(
    kinds: &mut [u8],
    numbers: &mut [f32],
    tables: &mut [f32],
    lengths: &mut [f32],
    commands: &mut [u32],
    count: usize,
    command: u32,
    start: Point,
    control: Point,
    end: Point,
) -> Result<Values, Refusal>
    ensures { Append (before_mut kinds numbers tables lengths commands) count command (PathSegment.Quad start control end) result (after kinds numbers tables lengths commands) }
{
    let segment = PathSegment::Quad {
        start,
        control,
        end,
    };
    push_segment(
        kinds, numbers, tables, lengths, commands, count, command, segment,
    )
}

// Appends the cubic from start to end, drawn towards control1 and then control2.
pub fn cubic_to(
    kinds: &mut [u8],
    numbers: &mut [f32],
    tables: &mut [f32],
    lengths: &mut [f32],
    commands: &mut [u32],
    count: usize,
    command: u32,
    start: Point,
    control1: Point,
    control2: Point,
    end: Point,
) -> Result<Values, Refusal>
    ensures { Append (before_mut kinds numbers tables lengths commands) count command (PathSegment.Cubic start control1 control2 end) result (after kinds numbers tables lengths commands) }
{
    let segment = PathSegment::Cubic {
        start,
        control1,
        control2,
        end,
    };
    push_segment(
        kinds, numbers, tables, lengths, commands, count, command, segment,
    )
}

// The arc of a chord, or its line fallback.
#[tactic(auto, unfolding(crate::specs::Appending::arc_segment))]
fn arc_segment(chord: Chord) -> PathSegment
    ensures { result ≡ arc_segment chord }
{
    if is_fallback(chord) {
        return PathSegment::Fallback(fallback_shape(chord));
    }
    PathSegment::Arc(from_ends(chord))
}

// Appends the arc through both ends of a chord, or its line fallback.
pub fn arc_to(
    kinds: &mut [u8],
    numbers: &mut [f32],
    tables: &mut [f32],
    lengths: &mut [f32],
    commands: &mut [u32],
    count: usize,
    command: u32,
    chord: Chord,
) -> Result<Values, Refusal>
    ensures { Append (before_mut kinds numbers tables lengths commands) count command (arc_segment chord) result (after kinds numbers tables lengths commands) }
{
    push_segment(
        kinds,
        numbers,
        tables,
        lengths,
        commands,
        count,
        command,
        arc_segment(chord),
    )
}
