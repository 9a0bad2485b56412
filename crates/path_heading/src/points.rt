// Where a segment is.
ghost use Rattle.std.specs.Prelude.{◌≡◌};
ghost use Rattle.path_heading.specs.Headings.{sample_of};

use arc::{arc_sample, chord_line, line_point};
use bezier::{cubic_sample, quad_sample};
use math::{Point, tidy_point};
use path_segment::PathSegment;
use table::RawParameter;

// The point of a segment at its raw parameter. Compiled, a NaN of it is 7FC00000.
#[tactic(auto, unfolding(crate::specs::Headings::sample_of))]
pub fn sample(segment: PathSegment, raw: RawParameter) -> Point
    ensures { result ≡ sample_of segment raw.value }
{
    match segment {
        PathSegment::Line(line) => tidy_point(line_point(line, raw)),
        PathSegment::Quad {
            start,
            control,
            end,
        } => tidy_point(quad_sample(start, control, end, raw)),
        PathSegment::Cubic {
            start,
            control1,
            control2,
            end,
        } => tidy_point(cubic_sample(start, control1, control2, end, raw)),
        PathSegment::Arc(shape) => tidy_point(arc_sample(shape, raw)),
        PathSegment::Fallback(shape) => tidy_point(line_point(chord_line(shape), raw)),
    }
}
