// What one command makes: nothing, a segment, or the refusal of an arc's rotation.
ghost use Rattle.std.specs.Prelude.{◌≡◌};
ghost use Rattle.path_drawing.specs.Drawing.{arc_of, draw_of};

use crate::pens::{Pen, drawn, moved};
use arc::{LineSegment, fallback_shape, is_fallback};
use commands::PathCommand;
use ellipse::{Chord, from_ends};
use floats::is_finite;
use path_segment::PathSegment;

#[derive(Clone, Copy)]
pub enum Drawn {
    // No segment: the pen goes on from another place.
    Moved(Pen),
    // A segment, and the pen after it.
    Segment { segment: PathSegment, next: Pen },
}

// An arc or its line fallback; nothing where the rotation of an arc that is no line fallback is infinite or a NaN.
#[tactic(auto, unfolding(crate::specs::Drawing::arc_of))]
fn arc_drawn(chord: Chord, next: Pen) -> Option<Drawn>
    ensures { result ≡ arc_of chord next }
{
    if is_fallback(chord) {
        return Some(Drawn::Segment {
            segment: PathSegment::Fallback(fallback_shape(chord)),
            next,
        });
    }
    if is_finite(chord.x_axis_rotation) {
        return Some(Drawn::Segment {
            segment: PathSegment::Arc(from_ends(chord)),
            next,
        });
    }
    None
}

// What a command makes, and where the pen is after it; nothing where its rotation is out of range. A drawing command without a current
// point makes no segment and sets the point all the same. Within its callers it takes less stack (tests/c/stack.c).
#[tactic(auto, unfolding(crate::specs::Drawing::arc_stroke_of, crate::specs::Drawing::draw_of))]
#[inline(always)]
pub fn draw(pen: Pen, command: PathCommand) -> Option<Drawn>
    ensures { result ≡ draw_of pen command }
{
    match command {
        PathCommand::MoveTo(point) => Some(Drawn::Moved(moved(point))),
        PathCommand::LineTo(end) => {
            let next = drawn(pen, end);
            let Some(start) = pen.current else {
                return Some(Drawn::Moved(next));
            };
            let segment = PathSegment::Line(LineSegment { start, end });
            Some(Drawn::Segment { segment, next })
        }
        PathCommand::QuadTo { control, end } => {
            let next = drawn(pen, end);
            let Some(start) = pen.current else {
                return Some(Drawn::Moved(next));
            };
            let segment = PathSegment::Quad {
                start,
                control,
                end,
            };
            Some(Drawn::Segment { segment, next })
        }
        PathCommand::CubicTo {
            control1,
            control2,
            end,
        } => {
            let next = drawn(pen, end);
            let Some(start) = pen.current else {
                return Some(Drawn::Moved(next));
            };
            let segment = PathSegment::Cubic {
                start,
                control1,
                control2,
                end,
            };
            Some(Drawn::Segment { segment, next })
        }
        PathCommand::ArcTo {
            radii,
            rotation,
            large_arc,
            sweep,
            end,
        } => {
            let next = drawn(pen, end);
            let Some(start) = pen.current else {
                return Some(Drawn::Moved(next));
            };
            let chord = Chord {
                start,
                radii,
                x_axis_rotation: rotation,
                large_arc,
                sweep,
                end,
            };
            arc_drawn(chord, next)
        }
        PathCommand::ClosePath => {
            let Some(current) = pen.current else {
                return Some(Drawn::Moved(pen));
            };
            let start = pen.start;
            let segment = PathSegment::Line(LineSegment {
                start: current,
                end: start,
            });
            Some(Drawn::Segment {
                segment,
                next: drawn(pen, start),
            })
        }
    }
}
