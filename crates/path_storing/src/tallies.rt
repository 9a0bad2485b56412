// Counting what commands store, with no length measured: where every point is calm no running length is refused, and nothing else of a
// length is asked before anything is stored.
ghost use Rattle.std.specs.Prelude.{◌≡◌, ◌≤◌};
ghost use Rattle.path_drawing.specs.Drawing.{draw_of};
ghost use Rattle.path_storing.specs.Sites.{start_of};
ghost use Rattle.path_storing.specs.Tallies.{FewIn, tally_of, stayed_of, grown_of, stroked_of, is_bounded, counted_of, tallied_of};

use crate::arc_tallies::count_arc;
use crate::sites::Sizes;
use commands::PathCommand;
use ellipse::Chord;
use math::Point;
use path_bounds::{is_calm, is_calm_arc};
use path_drawing::{Drawn, Pen, draw, drawn, fresh, moved};
use path_segment::{PathSegment, kind, table_width, width};

// A site without its running length.
#[derive(Clone, Copy)]
pub struct Tally {
    pub pen: Pen,
    // What is drawn so far.
    pub sizes: Sizes,
}

// The tally before the first command.
#[tactic(auto, unfolding(crate::specs::Sites::start_of, crate::specs::Tallies::tally_of))]
pub fn opening() -> Tally
    ensures { result ≡ tally_of start_of }
{
    Tally {
        pen: fresh(),
        sizes: Sizes {
            segments: 0,
            fields: 0,
            tables: 0,
        },
    }
}

// The tally after a command that draws no segment.
pub(crate) fn stayed(so_far: Tally, pen: Pen) -> Tally
    ensures { result ≡ stayed_of so_far pen }
{
    Tally { pen, ..so_far }
}

// The tally after a segment of `own` fields, with `more` numbers in its table.
pub(crate) fn grown(so_far: Tally, pen: Pen, own: usize, more: usize) -> Tally
    requires { FewIn so_far × (own ≤ 11) × (more ≤ 33) }
    ensures { result ≡ grown_of so_far pen own more }
{
    Tally {
        pen,
        sizes: so_far.sizes.grown(own, more),
    }
}

// A line or a curve up to a point, where all its points are calm. Where one is far away, only measuring tells.
#[tactic(auto, unfolding(crate::specs::Tallies::stroked_of))]
fn stroked(so_far: Tally, calm: bool, end: Point, own: usize, more: usize) -> Option<Tally>
    requires { FewIn so_far × (own ≤ 11) × (more ≤ 33) }
    ensures { result ≡ stroked_of so_far calm end own more }
{
    if !calm {
        return None;
    }
    let next = drawn(so_far.pen, end);
    match so_far.pen.current {
        Some(_) => Some(grown(so_far, next, own, more)),
        None => Some(stayed(so_far, next)),
    }
}

// Whether a segment between calm points is not long: an arc is judged by its fields.
fn is_bounded(segment: PathSegment) -> bool
    ensures { result ≡ is_bounded segment }
{
    match segment {
        PathSegment::Arc(shape) => is_calm_arc(shape),
        PathSegment::Line(_)
        | PathSegment::Quad { .. }
        | PathSegment::Cubic { .. }
        | PathSegment::Fallback(_) => true,
    }
}

// What any command draws, where it names calm points: nothing where an arc is large or refused.
#[tactic(auto, unfolding(crate::specs::Tallies::counted_of))]
fn count_any(so_far: Tally, command: PathCommand) -> Option<Tally>
    requires { FewIn so_far }
    ensures { result ≡ counted_of so_far (draw_of so_far.pen command) }
{
    match draw(so_far.pen, command) {
        Some(Drawn::Moved(next)) => Some(stayed(so_far, next)),
        Some(Drawn::Segment { segment, next }) => {
            if !is_bounded(segment) {
                return None;
            }
            let byte = kind(segment);
            let own = width(byte);
            let more = table_width(byte);
            Some(grown(so_far, next, own, more))
        }
        None => None,
    }
}

// Counts what a command stores, where no length need be measured to tell: no point is far away, and no arc large or refused.
#[tactic(auto, unfolding(crate::specs::Tallies::tallied_of, crate::specs::Tallies::counted_of, path_drawing::specs::Drawing::draw_of, path_drawing::specs::Drawing::arc_stroke_of))]
pub fn count(so_far: Tally, command: PathCommand) -> Option<Tally>
    requires { FewIn so_far }
    ensures { result ≡ tallied_of so_far command }
{
    match command {
        PathCommand::MoveTo(point) => {
            if !is_calm(point) {
                return None;
            }
            Some(stayed(so_far, moved(point)))
        }
        PathCommand::LineTo(end) => stroked(so_far, is_calm(end), end, 4, 0),
        PathCommand::QuadTo { control, end } => {
            stroked(so_far, is_calm(control) & is_calm(end), end, 6, 33)
        }
        PathCommand::CubicTo {
            control1,
            control2,
            end,
        } => {
            let calm = is_calm(control1) & is_calm(control2) & is_calm(end);
            stroked(so_far, calm, end, 8, 33)
        }
        PathCommand::ArcTo {
            radii,
            rotation,
            large_arc,
            sweep,
            end,
        } => {
            if !is_calm(end) {
                return None;
            }
            let next = drawn(so_far.pen, end);
            let Some(start) = so_far.pen.current else {
                return Some(stayed(so_far, next));
            };
            let chord = Chord {
                start,
                radii,
                x_axis_rotation: rotation,
                large_arc,
                sweep,
                end,
            };
            count_arc(so_far, chord, next)
        }
        PathCommand::ClosePath => count_any(so_far, command),
    }
}
