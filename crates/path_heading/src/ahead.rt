// Where a segment heads, for callers that know its table to be in its place.
ghost use Rattle.std.specs.Prelude.{◌≡◌, T};
ghost use Rattle.bezier.specs.Curves.{ahead_of};
ghost use Rattle.path_segment.specs.Segments.{has_table, kind_of};
ghost use Rattle.path_place.specs.Places.{TableThere, raw_in};
ghost use Rattle.path_heading.specs.Headings.{heading_of};

use crate::directions::{cubic_heading, quad_heading};
use arc::{arc_heading, chord_line, line_tangent};
use math::Point;
use path_segment::PathSegment;
use table::{Progress, RawParameter};

// Where a segment heads at a local progress, with the length 1, or (0, 0) where nothing tells. `raw` is the raw parameter of the local
// progress, and the segment's table starts at `first`, if it has one.
#[tactic(auto, unfolding(crate::specs::Headings::heading_of, path_segment::specs::Segments::has_table, path_segment::specs::Segments::tables_of))]
pub fn heading(
    segment: PathSegment,
    tables: &[f32],
    first: usize,
    along: Progress,
    raw: RawParameter,
) -> Point
    requires { T (has_table (kind_of segment)) → TableThere tables.now first }
    ensures { result ≡ heading_of segment raw.value (raw_in tables.now first (ahead_of along.value)) }
{
    match segment {
        PathSegment::Line(line) => line_tangent(line),
        PathSegment::Quad {
            start,
            control,
            end,
        } => quad_heading(start, control, end, tables, first, along, raw),
        PathSegment::Cubic {
            start,
            control1,
            control2,
            end,
        } => cubic_heading(start, control1, control2, end, tables, first, along, raw),
        PathSegment::Arc(shape) => arc_heading(shape, raw),
        PathSegment::Fallback(shape) => line_tangent(chord_line(shape)),
    }
}
