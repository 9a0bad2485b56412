// The queries of one segment. The progress is along the segment, from 0 to 1; what lies outside is clamped and a NaN is 0. The
// table stands beside the segment: one that is not sound is refused, and a line and a line fallback have none.
ghost use Rattle.std.specs.Prelude.{◌≡◌};
ghost use Rattle.path_part.specs.Parts.{position_of, tangent_of, rotation_of};

use answers::Refusal;
use arc::{EllipticalArc, arc_position, arc_tangent, chord_line, line_position, line_tangent};
use bezier::{
    CubicBezierCurve, QuadBezier, cubic_position, cubic_tangent, quad_position, quad_tangent,
};
use floats::tidy;
use math::Point;
use path_segment::PathSegment;
use table::{Progress, Table};

// Where a segment is.
#[tactic(auto, unfolding(crate::specs::Parts::position_of))]
pub fn position(segment: PathSegment, table: Table, along: Progress) -> Result<Point, Refusal>
    ensures { result ≡ position_of segment table along.value }
{
    match segment {
        PathSegment::Line(line) => Ok(line_position(line, along)),
        PathSegment::Quad {
            start,
            control,
            end,
        } => {
            let curve = QuadBezier {
                start,
                control,
                end,
                table,
            };
            quad_position(curve, along)
        }
        PathSegment::Cubic {
            start,
            control1,
            control2,
            end,
        } => {
            let curve = CubicBezierCurve {
                start,
                control1,
                control2,
                end,
                table,
            };
            cubic_position(curve, along)
        }
        PathSegment::Arc(shape) => {
            let arc = EllipticalArc {
                shape,
                line_fallback: false,
                table,
            };
            arc_position(arc, along)
        }
        PathSegment::Fallback(shape) => Ok(line_position(chord_line(shape), along)),
    }
}

// Where it heads, with the length 1, or (0, 0) where nothing tells.
#[tactic(auto, unfolding(crate::specs::Parts::tangent_of))]
pub fn tangent(segment: PathSegment, table: Table, along: Progress) -> Result<Point, Refusal>
    ensures { result ≡ tangent_of segment table along.value }
{
    match segment {
        PathSegment::Line(line) => Ok(line_tangent(line)),
        PathSegment::Quad {
            start,
            control,
            end,
        } => {
            let curve = QuadBezier {
                start,
                control,
                end,
                table,
            };
            quad_tangent(curve, along)
        }
        PathSegment::Cubic {
            start,
            control1,
            control2,
            end,
        } => {
            let curve = CubicBezierCurve {
                start,
                control1,
                control2,
                end,
                table,
            };
            cubic_tangent(curve, along)
        }
        PathSegment::Arc(shape) => {
            let arc = EllipticalArc {
                shape,
                line_fallback: false,
                table,
            };
            arc_tangent(arc, along)
        }
        PathSegment::Fallback(shape) => Ok(line_tangent(chord_line(shape))),
    }
}

// That heading in degrees from the x axis towards the y axis.
#[tactic(auto, unfolding(crate::specs::Parts::rotation_of))]
pub fn rotation_deg(segment: PathSegment, table: Table, along: Progress) -> Result<f32, Refusal>
    ensures { result ≡ rotation_of segment table along.value }
{
    let to = tangent(segment, table, along)?;
    Ok(tidy(angles::rotation_deg(to)))
}
