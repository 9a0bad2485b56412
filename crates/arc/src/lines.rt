// A straight line.
ghost use Rattle.std.specs.Prelude.{◌≡◌};
ghost use Rattle.arc.specs.Lines.{line_length_of, line_point_of, line_position_of, line_tangent_of, line_rotation_deg_of, made_line_of};

use angles::rotation_deg;
use answers::Refusal;
use bezier::verdict_of;
use floats::tidy;
use math::{Point, distance, lerp_point, normalize, sub, tidy_point};
use table::inner::raw_parameter_in;
use table::{Progress, RawParameter, number_of};

// From `start` to `end`.
#[derive(Clone, Copy)]
pub struct LineSegment {
    pub start: Point,
    pub end: Point,
}

// How long a line is: the distance of its ends.
#[tactic(auto, unfolding(crate::specs::Lines::line_length_of))]
pub fn line_length(line: LineSegment) -> f32
    ensures { result ≡ line_length_of line }
{
    let start = line.start;
    let end = line.end;
    tidy(distance(start, end))
}

// The point at a raw parameter. It may miss the end at 1, as `lerp` does.
#[tactic(auto, unfolding(crate::specs::Lines::line_point_of))]
pub fn line_point(line: LineSegment, raw: RawParameter) -> Point
    ensures { result ≡ line_point_of line raw.value }
{
    let start = line.start;
    let end = line.end;
    tidy_point(lerp_point(start, end, number_of(raw)))
}

// Where a line is at a progress, which is clamped; a NaN is the start. Its table is a single 0.
pub fn line_position(line: LineSegment, progress: Progress) -> Point
    ensures { result ≡ line_position_of line progress.value }
{
    let single = [0.0f32; 1];
    line_point(line, raw_parameter_in(&single, 0.0, progress))
}

// Where a line heads, with the length 1, or (0, 0) where its ends are within 2^-23.
#[tactic(auto, unfolding(crate::specs::Lines::line_tangent_of))]
pub fn line_tangent(line: LineSegment) -> Point
    ensures { result ≡ line_tangent_of line }
{
    let start = line.start;
    let end = line.end;
    tidy_point(normalize(sub(end, start)))
}

// That heading in degrees.
#[tactic(auto, unfolding(crate::specs::Lines::line_rotation_deg_of))]
pub fn line_rotation_deg(line: LineSegment) -> f32
    ensures { result ≡ line_rotation_deg_of line }
{
    tidy(rotation_deg(line_tangent(line)))
}

// A line between two points. A length that is infinite or a NaN is refused; a lone segment is segment 0.
#[tactic(auto, unfolding(crate::specs::Lines::made_line_of))]
pub fn line(start: Point, end: Point) -> Result<LineSegment, Refusal>
    ensures { result ≡ made_line_of start end }
{
    let line = LineSegment { start, end };
    verdict_of(line_length(line))?;
    Ok(line)
}
