// A segment as it leaves the library: the coordinates of a stored path are not judged, and each NaN of them becomes 7FC00000.
ghost use Rattle.std.specs.Prelude.{◌≡◌};

use arc::LineSegment;
use ellipse::Arc;
use floats::tidy;
use math::tidy_point;
use path_segment::PathSegment;

fn shape_leaving(shape: Arc) -> Arc
    ensures { result ≡ shape }
{
    let start = shape.start;
    let end = shape.end;
    let center = shape.center;
    let radii = shape.radii;
    Arc {
        start: tidy_point(start),
        end: tidy_point(end),
        center: tidy_point(center),
        radii: tidy_point(radii),
        x_axis_rotation: tidy(shape.x_axis_rotation),
        start_angle: tidy(shape.start_angle),
        delta_angle: tidy(shape.delta_angle),
    }
}

// The same segment.
pub(crate) fn leaving(segment: PathSegment) -> PathSegment
    ensures { result ≡ segment }
{
    match segment {
        PathSegment::Line(line) => {
            let start = line.start;
            let end = line.end;
            PathSegment::Line(LineSegment {
                start: tidy_point(start),
                end: tidy_point(end),
            })
        }
        PathSegment::Quad {
            start,
            control,
            end,
        } => PathSegment::Quad {
            start: tidy_point(start),
            control: tidy_point(control),
            end: tidy_point(end),
        },
        PathSegment::Cubic {
            start,
            control1,
            control2,
            end,
        } => PathSegment::Cubic {
            start: tidy_point(start),
            control1: tidy_point(control1),
            control2: tidy_point(control2),
            end: tidy_point(end),
        },
        PathSegment::Arc(shape) => PathSegment::Arc(shape_leaving(shape)),
        PathSegment::Fallback(shape) => PathSegment::Fallback(shape_leaving(shape)),
    }
}
