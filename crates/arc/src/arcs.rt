// An elliptical arc, or the line that it falls back to.
ghost use Rattle.std.specs.Prelude.{◌≡◌};
ghost use Rattle.table_samples.specs.Samples.{steps_of, table_of};
ghost use Rattle.ellipse.specs.Shape.{point_turned, point_on, direction_on};
ghost use Rattle.arc.specs.Arcs.{is_fallback, fallback_shape, no_table, chord_line, fallen_back, fitted, made_arc_of, arc_length_of, arc_placed_of, arc_heading_of, arc_turned_of};

use crate::inner;
use crate::lines::{LineSegment, line_length, line_position, line_tangent};
use crate::samples::{put_angles, put_differences, put_points, put_sines};
use angles::rotation_deg;
use answers::Refusal;
use bezier::verdict_of;
use ellipse::{Arc, Chord, direction, from_ends, point, size, turn_of};
use floats::{EPSILON, is_finite, tidy};
use lengths::inner::lengths;
use math::{Point, distance, tidy_point};
use table::{Progress, RawParameter, Table, table_is_sound, table_of};
use trig::SinCos;

// An arc, with its running lengths unless it is a line fallback. `arc` makes one whose table is sound.
#[derive(Clone, Copy)]
pub struct EllipticalArc {
    pub shape: Arc,
    pub line_fallback: bool,
    pub table: Table,
}

// Whether an arc is drawn as a line: its ends are within 2^-23 or a radius is that small. A NaN is not.
#[tactic(auto, unfolding(crate::specs::Arcs::is_fallback, floats::specs::Floats::epsilon_f))]
pub fn is_fallback(chord: Chord) -> bool
    ensures { result ≡ is_fallback chord }
{
    let start = chord.start;
    let end = chord.end;
    let radii = chord.radii;
    if distance(start, end) <= EPSILON {
        return true;
    }
    if size(radii.x) <= EPSILON {
        return true;
    }
    size(radii.y) <= EPSILON
}

// The point at a raw parameter.
pub fn arc_sample(shape: Arc, raw: RawParameter) -> Point
    ensures { result ≡ point_on shape raw.value }
{
    tidy_point(point(shape, raw))
}

// The direction at a raw parameter, with the length 1, or (0, 0) where the derivative is too short.
pub fn arc_heading(shape: Arc, raw: RawParameter) -> Point
    ensures { result ≡ direction_on shape raw.value }
{
    tidy_point(direction(shape, raw))
}

// The distances from each of the 32 samples to the next. They share the turn, so that it is taken once for all, and are measured
// together. The last place of a row leaves no rest in lanes; nothing reads it.
fn arc_steps(shape: Arc, turn: SinCos) -> [f32; 31]
    ensures { result ≡ steps_of (point_turned shape turn) 31 }
{
    let mut x = [0.0f32; 32];
    let mut y = [0.0f32; 32];
    put_angles(shape, &mut x);
    put_sines(&mut x, &mut y);
    put_points(shape.center, shape.radii, turn, &mut x, &mut y);
    put_differences(&mut x);
    put_differences(&mut y);
    let mut steps = [0.0f32; 31];
    lengths(&x, &y, &mut steps);
    steps
}

// The table of an ellipse's arc.
pub fn arc_table(shape: Arc) -> Table
    ensures { result ≡ table_of (point_on shape) }
{
    table_of(arc_steps(shape, turn_of(shape.x_axis_rotation)))
}

// The numbers of a line fallback: its ends and its rotation, and zeros.
#[tactic(auto, unfolding(crate::specs::Arcs::fallback_shape, floats::specs::Floats::zero_f, math::specs::Math::origin_f))]
pub fn fallback_shape(chord: Chord) -> Arc
    ensures { result ≡ fallback_shape chord }
{
    let start = chord.start;
    let end = chord.end;
    Arc {
        start,
        end,
        center: Point { x: 0.0, y: 0.0 },
        radii: Point { x: 0.0, y: 0.0 },
        x_axis_rotation: tidy(chord.x_axis_rotation),
        start_angle: 0.0,
        delta_angle: 0.0,
    }
}

// What stands for a table where there is none. Its total is not its last entry, so that no lookup takes it.
#[tactic(auto, unfolding(crate::specs::Arcs::no_table, floats::specs::Floats::zero_f, floats::specs::Floats::one_f))]
pub fn no_table() -> Table
    ensures { result ≡ no_table }
{
    Table {
        entries: [0.0f32; 32],
        total: 1.0,
    }
}

// The line between an arc's ends.
pub fn chord_line(shape: Arc) -> LineSegment
    ensures { result ≡ chord_line shape }
{
    let start = shape.start;
    let end = shape.end;
    LineSegment { start, end }
}

// The line fallback, judged by the length of its line.
#[tactic(auto, unfolding(crate::specs::Arcs::fallen_back))]
fn fallen_back(chord: Chord) -> Result<EllipticalArc, Refusal>
    ensures { result ≡ fallen_back chord }
{
    let shape = fallback_shape(chord);
    verdict_of(line_length(chord_line(shape)))?;
    Ok(EllipticalArc {
        shape,
        line_fallback: true,
        table: no_table(),
    })
}

// The ellipse's arc, judged by its table's total.
#[tactic(auto, unfolding(crate::specs::Arcs::fitted))]
fn fitted(chord: Chord) -> Result<EllipticalArc, Refusal>
    ensures { result ≡ fitted chord }
{
    let shape = from_ends(chord);
    let table = arc_table(shape);
    verdict_of(table.total)?;
    Ok(EllipticalArc {
        shape,
        line_fallback: false,
        table,
    })
}

// An arc through both ends, or its line fallback. A rotation that is infinite or a NaN is refused, then such a length; a lone
// segment is segment 0. Any other rotation is kept as it is given. Where the numbers do not suffice the arc misses its ends, as the Rust's does.
#[tactic(auto, unfolding(crate::specs::Arcs::made_arc_of, crate::specs::Arcs::out_of_range))]
pub fn arc(chord: Chord) -> Result<EllipticalArc, Refusal>
    ensures { result ≡ made_arc_of chord }
{
    if is_fallback(chord) {
        return fallen_back(chord);
    }
    if is_finite(chord.x_axis_rotation) {
        return fitted(chord);
    }
    Err(Refusal::RotationRange(0))
}

// Where an arc is at a progress. A table that is not sound is refused; a line fallback has none.
#[tactic(auto, unfolding(crate::specs::Arcs::arc_placed_of, bezier::specs::Curves::placed_of))]
pub fn arc_position(arc: EllipticalArc, progress: Progress) -> Result<Point, Refusal>
    ensures { result ≡ arc_placed_of arc progress.value }
{
    let shape = arc.shape;
    let table = arc.table;
    if arc.line_fallback {
        return Ok(line_position(chord_line(shape), progress));
    }
    if table_is_sound(table) {
        return Ok(inner::arc_position(shape, table, progress));
    }
    Err(Refusal::BadPath)
}

// Where an arc heads at a progress, with the length 1, or (0, 0) where nothing tells. A table that is not sound is refused.
#[tactic(auto, unfolding(crate::specs::Arcs::arc_heading_of, bezier::specs::Curves::placed_of))]
pub fn arc_tangent(arc: EllipticalArc, progress: Progress) -> Result<Point, Refusal>
    ensures { result ≡ arc_heading_of arc progress.value }
{
    let shape = arc.shape;
    let table = arc.table;
    if arc.line_fallback {
        return Ok(line_tangent(chord_line(shape)));
    }
    if table_is_sound(table) {
        return Ok(inner::arc_tangent(shape, table, progress));
    }
    Err(Refusal::BadPath)
}

// That heading in degrees. A table that is not sound is refused.
#[tactic(auto, unfolding(crate::specs::Arcs::arc_turned_of))]
pub fn arc_rotation_deg(arc: EllipticalArc, progress: Progress) -> Result<f32, Refusal>
    ensures { result ≡ arc_turned_of arc progress.value }
{
    let tangent = arc_tangent(arc, progress)?;
    Ok(tidy(rotation_deg(tangent)))
}

// How long an arc is: its table's total, or the length of the line that it fell back to.
#[tactic(auto, unfolding(crate::specs::Arcs::arc_length_of))]
pub fn arc_length(arc: EllipticalArc) -> f32
    ensures { result ≡ arc_length_of arc }
{
    let shape = arc.shape;
    if arc.line_fallback {
        return line_length(chord_line(shape));
    }
    tidy(arc.table.total)
}
