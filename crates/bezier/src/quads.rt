// A curve of second degree.
ghost use Rattle.std.specs.Prelude.{◌≡◌, T};
ghost use Rattle.table_samples.specs.Samples.{steps_of, table_of};
ghost use Rattle.table.specs.Sound.{SoundTable, table_is_sound};
ghost use Rattle.table.specs.Lookup.{raw_of};
ghost use Rattle.bezier.specs.Curves.{ahead_of};
ghost use Rattle.bezier.specs.Quads.{quad_sample_of, quad_derivative_of, quad_direction, quad_tangent_at, made_quad_of, quad_placed_of, quad_heading_of, quad_turned_of};

use crate::curves::{Curve, verdict_of};
use crate::queries::{direction, headed, placed, tangent_at, turned};
use crate::rows::{quad_coordinate, sample_mark};
use answers::Refusal;
use floats::tidy;
use lengths::inner::lengths;
use math::{Point, add, clamp01, lerp_point, scale, sub, tidy_point};
use table::{Progress, RawParameter, Table, number_of, table_of};

// A quad by its points: from `start` to `end`, drawn towards `control`.
#[derive(Clone, Copy)]
pub(crate) struct QuadPoints {
    pub start: Point,
    pub control: Point,
    pub end: Point,
}

impl Curve for QuadPoints {
    ghost use Rattle.bezier.specs.Quads.{quad_sample_of, quad_derivative_of};

    ghost sample = { λ curve raw. quad_sample_of curve.start curve.control curve.end raw };

    ghost derivative = { λ curve raw. quad_derivative_of curve.start curve.control curve.end raw };

    // By three interpolations.
    #[tactic(auto, unfolding(crate::specs::Quads::quad_sample_of))]
    fn sample(&self, raw: RawParameter) -> Point {
        let t = clamp01(number_of(raw));
        let a = lerp_point(self.start, self.control, t);
        let b = lerp_point(self.control, self.end, t);
        tidy_point(lerp_point(a, b, t))
    }

    #[tactic(auto, unfolding(crate::specs::Quads::quad_derivative_of, crate::specs::Quads::two_f, floats::specs::Floats::one_f))]
    fn derivative(&self, raw: RawParameter) -> Point {
        let t = number_of(raw);
        let a = scale(sub(self.control, self.start), 2.0 * (1.0 - t));
        let b = scale(sub(self.end, self.control), 2.0 * t);
        add(a, b)
    }
}

// From `start` to `end`, drawn towards `control`, with its running lengths. `quad` makes one whose table is sound.
#[derive(Clone, Copy)]
pub struct QuadBezier {
    pub start: Point,
    pub control: Point,
    pub end: Point,
    pub table: Table,
}

// The point at a raw parameter.
pub fn quad_sample(start: Point, control: Point, end: Point, raw: RawParameter) -> Point
    ensures { result ≡ quad_sample_of start control end raw.value }
{
    let points = QuadPoints {
        start,
        control,
        end,
    };
    points.sample(raw)
}

// The direction and speed at a raw parameter.
pub fn quad_derivative(start: Point, control: Point, end: Point, raw: RawParameter) -> Point
    ensures { result ≡ quad_derivative_of start control end raw.value }
{
    let points = QuadPoints {
        start,
        control,
        end,
    };
    points.derivative(raw)
}

// The distances from each of the 32 samples to the next. Both rows of differences are worked out in one loop, each sample's place for
// both at once; the last place of a row leaves no rest in lanes, and nothing reads it.
fn quad_steps(start: Point, control: Point, end: Point) -> [f32; 31]
    ensures { result ≡ steps_of (quad_sample_of start control end) 31 }
{
    let mut x = [0.0f32; 32];
    let mut y = [0.0f32; 32];
    for k in 0..32 {
        let here = sample_mark(k);
        let next = sample_mark(k + 1);
        x[k] = quad_coordinate(start.x, control.x, end.x, next)
            - quad_coordinate(start.x, control.x, end.x, here);
        y[k] = quad_coordinate(start.y, control.y, end.y, next)
            - quad_coordinate(start.y, control.y, end.y, here);
    }
    let mut steps = [0.0f32; 31];
    lengths(&x, &y, &mut steps);
    steps
}

// The table of the curve.
pub fn quad_table(start: Point, control: Point, end: Point) -> Table
    ensures { result ≡ table_of (quad_sample_of start control end) }
{
    table_of(quad_steps(start, control, end))
}

// A quad with its table. A length that is infinite or a NaN is refused; a lone segment is segment 0.
#[tactic(auto, unfolding(crate::specs::Quads::made_quad_of, crate::specs::Quads::quad_of))]
pub fn quad(start: Point, control: Point, end: Point) -> Result<QuadBezier, Refusal>
    ensures { result ≡ made_quad_of start control end }
{
    let table = quad_table(start, control, end);
    verdict_of(table.total)?;
    Ok(QuadBezier {
        start,
        control,
        end,
        table,
    })
}

// The points of a quad, without its table.
pub(crate) fn points_of(curve: &QuadBezier) -> QuadPoints
    ensures start { result.start ≡ curve.now.start }
    ensures control { result.control ≡ curve.now.control }
    ensures end { result.end ≡ curve.now.end }
{
    QuadPoints {
        start: curve.start,
        control: curve.control,
        end: curve.end,
    }
}

// Where a quad heads at the raw parameter of a progress, over a lent table that is sound (`direction`).
#[tactic(auto, unfolding(crate::specs::Quads::quad_direction))]
pub fn quad_direction(
    start: Point,
    control: Point,
    end: Point,
    raw: RawParameter,
    entries: &[f32],
    total: f32,
    progress: Progress,
) -> Point
    requires { SoundTable entries.now total }
    ensures { result ≡ quad_direction start control end raw.value (raw_of entries.now total (ahead_of progress.value)) }
{
    let points = QuadPoints {
        start,
        control,
        end,
    };
    direction(&points, raw, entries, total, progress)
}

// The same over the quad's own table, which is sound.
#[tactic(auto, unfolding(crate::specs::Quads::quad_tangent_at, crate::specs::Quads::quad_direction))]
pub fn quad_tangent_at(curve: QuadBezier, raw: RawParameter, progress: Progress) -> Point
    requires { T (table_is_sound curve.table.entries curve.table.total) }
    ensures { result ≡ quad_tangent_at curve raw.value progress.value }
{
    tangent_at(&points_of(&curve), &curve.table, raw, progress)
}

// Where a quad is at a progress. A table that is not sound is refused.
#[tactic(auto, unfolding(crate::specs::Quads::quad_placed_of, crate::specs::Quads::quad_position_of))]
pub fn quad_position(curve: QuadBezier, progress: Progress) -> Result<Point, Refusal>
    ensures { result ≡ quad_placed_of curve progress.value }
{
    placed(&points_of(&curve), &curve.table, progress)
}

// Where a quad heads at a progress, with the length 1, or (0, 0) where nothing tells. A table that is not sound is refused.
#[tactic(auto, unfolding(crate::specs::Quads::quad_heading_of, crate::specs::Quads::quad_tangent_of, crate::specs::Quads::quad_tangent_at, crate::specs::Quads::quad_direction))]
pub fn quad_tangent(curve: QuadBezier, progress: Progress) -> Result<Point, Refusal>
    ensures { result ≡ quad_heading_of curve progress.value }
{
    headed(&points_of(&curve), &curve.table, progress)
}

// Where a quad heads at a progress, in degrees from the x axis towards the y axis, or 0 where nothing tells. A table that is not
// sound is refused.
#[tactic(auto, unfolding(crate::specs::Quads::quad_turned_of, crate::specs::Quads::quad_tangent_of, crate::specs::Quads::quad_tangent_at, crate::specs::Quads::quad_direction))]
pub fn quad_rotation_deg(curve: QuadBezier, progress: Progress) -> Result<f32, Refusal>
    ensures { result ≡ quad_turned_of curve progress.value }
{
    turned(&points_of(&curve), &curve.table, progress)
}

// How long a quad is: its table's total.
pub fn quad_length(curve: QuadBezier) -> f32
    ensures { result ≡ curve.table.total }
{
    tidy(curve.table.total)
}
