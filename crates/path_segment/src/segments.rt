// The segments of a path.
ghost use Rattle.std.specs.Prelude.{◌≡◌, ◌*◌};
ghost use Rattle.path_segment.specs.declared.segments.PathSegment.TheVariants as Segment;
ghost use Rattle.path_segment.specs.Segments.{kind_of, width_of, tables_of, has_table, table_for, length_for};

use arc::{LineSegment, arc_table, chord_line, line_length, no_table};
use bezier::{cubic_table, quad_table};
use ellipse::Arc;
use floats::tidy;
use math::Point;
use table::Table;

// A segment with the Rust's fields without `length` and `line_fallback`, in path units; angles are in radians but for the rotation.
// Its table stands beside it.
#[derive(Clone, Copy)]
pub enum PathSegment {
    Line(LineSegment),
    Quad {
        start: Point,
        control: Point,
        end: Point,
    },
    Cubic {
        start: Point,
        control1: Point,
        control2: Point,
        end: Point,
    },
    Arc(Arc),
    // An arc that fell back to the line between its ends.
    Fallback(Arc),
}

// The byte under which a segment is stored. A kind is a number since a stored path's kinds are bytes in the C interface.
pub fn kind(segment: PathSegment) -> u8
    ensures { result ≡ kind_of segment }
{
    match segment {
        PathSegment::Line(_) => 0,
        PathSegment::Quad { .. } => 1,
        PathSegment::Cubic { .. } => 2,
        PathSegment::Arc(_) => 3,
        PathSegment::Fallback(_) => 4,
    }
}

// How many fields a segment of a kind has. An unknown kind has none.
#[tactic(auto, unfolding(crate::specs::Segments::width_of))]
pub fn width(kind: u8) -> usize
    ensures { result ≡ width_of kind }
{
    match kind {
        0 => 4,
        1 => 6,
        2 => 8,
        3 => 11,
        4 => 11,
        _ => 0,
    }
}

// Whether a segment of a kind stores a table.
#[tactic(auto, unfolding(crate::specs::Segments::has_table, crate::specs::Segments::tables_of))]
pub fn has_table(kind: u8) -> bool
    ensures { result ≡ has_table kind }
{
    matches!(kind, 1 | 2 | 3)
}

// How many numbers the table of a kind stores.
#[tactic(auto, unfolding(crate::specs::Segments::has_table))]
pub fn table_width(kind: u8) -> usize
    ensures { result ≡ 33 * tables_of kind }
{
    if has_table(kind) {
        return 33;
    }
    0
}

// The table of a segment. A line and a line fallback store none; what stands for it is not sound.
#[tactic(auto, unfolding(crate::specs::Segments::table_for))]
pub fn segment_table(segment: PathSegment) -> Table
    ensures { result ≡ table_for segment }
{
    match segment {
        PathSegment::Line(_) => no_table(),
        PathSegment::Quad {
            start,
            control,
            end,
        } => quad_table(start, control, end),
        PathSegment::Cubic {
            start,
            control1,
            control2,
            end,
        } => cubic_table(start, control1, control2, end),
        PathSegment::Arc(shape) => arc_table(shape),
        PathSegment::Fallback(_) => no_table(),
    }
}

// How long a quad, a cubic and an arc are. Each has a function of its own, so that their tables take turns on the stack.
#[tactic(auto, unfolding(crate::specs::Segments::length_for))]
fn quad_length(start: Point, control: Point, end: Point) -> f32
    ensures { result ≡ length_for (Segment.Quad start control end) }
{
    tidy(quad_table(start, control, end).total)
}

#[tactic(auto, unfolding(crate::specs::Segments::length_for))]
fn cubic_length(start: Point, control1: Point, control2: Point, end: Point) -> f32
    ensures { result ≡ length_for (Segment.Cubic start control1 control2 end) }
{
    tidy(cubic_table(start, control1, control2, end).total)
}

#[tactic(auto, unfolding(crate::specs::Segments::length_for))]
fn arc_length(shape: Arc) -> f32
    ensures { result ≡ length_for (Segment.Arc shape) }
{
    tidy(arc_table(shape).total)
}

// How long a segment is: its table's total, or the length of its line. Infinite or a NaN where that is so. Within its callers it takes
// less stack (tests/c/stack.c).
#[tactic(auto, unfolding(crate::specs::Segments::length_for))]
#[inline(always)]
pub fn segment_length(segment: PathSegment) -> f32
    ensures { result ≡ length_for segment }
{
    match segment {
        PathSegment::Line(line) => line_length(line),
        PathSegment::Quad {
            start,
            control,
            end,
        } => quad_length(start, control, end),
        PathSegment::Cubic {
            start,
            control1,
            control2,
            end,
        } => cubic_length(start, control1, control2, end),
        PathSegment::Arc(shape) => arc_length(shape),
        PathSegment::Fallback(shape) => line_length(chord_line(shape)),
    }
}
