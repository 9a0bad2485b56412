// A curve of third degree.
ghost use Rattle.std.specs.Prelude.{◌≡◌, T};
ghost use Rattle.table_samples.specs.Samples.{steps_of, table_of};
ghost use Rattle.table.specs.Sound.{SoundTable, table_is_sound};
ghost use Rattle.table.specs.Lookup.{raw_of};
ghost use Rattle.bezier.specs.Curves.{ahead_of};
ghost use Rattle.bezier.specs.Cubics.{cubic_sample_of, cubic_derivative_of, cubic_direction, cubic_tangent_at, made_cubic_of, cubic_placed_of, cubic_heading_of, cubic_turned_of};

use crate::curves::{Curve, verdict_of};
use crate::queries::{direction, headed, placed, tangent_at, turned};
use crate::rows::cubic_differences;
use answers::Refusal;
use floats::tidy;
use lengths::inner::lengths;
use math::{Point, add, clamp01, lerp_point, scale, sub, tidy_point};
use table::{Progress, RawParameter, Table, number_of, table_of};

// A cubic by its points: from `start` to `end`, drawn towards its two controls.
#[derive(Clone, Copy)]
pub(crate) struct CubicPoints {
    pub start: Point,
    pub control1: Point,
    pub control2: Point,
    pub end: Point,
}

impl Curve for CubicPoints {
    ghost use Rattle.bezier.specs.Cubics.{cubic_sample_of, cubic_derivative_of};

    ghost sample = { λ curve raw. cubic_sample_of curve.start curve.control1 curve.control2 curve.end raw };

    ghost derivative = { λ curve raw. cubic_derivative_of curve.start curve.control1 curve.control2 curve.end raw };

    // By six interpolations.
    #[tactic(auto, unfolding(crate::specs::Cubics::cubic_sample_of))]
    fn sample(&self, raw: RawParameter) -> Point {
        let t = clamp01(number_of(raw));
        let a = lerp_point(self.start, self.control1, t);
        let b = lerp_point(self.control1, self.control2, t);
        let c = lerp_point(self.control2, self.end, t);
        let d = lerp_point(a, b, t);
        let e = lerp_point(b, c, t);
        tidy_point(lerp_point(d, e, t))
    }

    #[tactic(auto, unfolding(crate::specs::Cubics::cubic_derivative_of, crate::specs::Cubics::three_f, crate::specs::Cubics::six_f, floats::specs::Floats::one_f))]
    fn derivative(&self, raw: RawParameter) -> Point {
        let t = number_of(raw);
        let left = 1.0 - t;
        let a = scale(sub(self.control1, self.start), 3.0 * left * left);
        let b = scale(sub(self.control2, self.control1), 6.0 * left * t);
        let c = scale(sub(self.end, self.control2), 3.0 * t * t);
        add(add(a, b), c)
    }
}

// From `start` to `end`, drawn towards its two controls, with its running lengths. `cubic` makes one whose table is sound.
#[derive(Clone, Copy)]
pub struct CubicBezierCurve {
    pub start: Point,
    pub control1: Point,
    pub control2: Point,
    pub end: Point,
    pub table: Table,
}

// The point at a raw parameter.
pub fn cubic_sample(
    start: Point,
    control1: Point,
    control2: Point,
    end: Point,
    raw: RawParameter,
) -> Point
    ensures { result ≡ cubic_sample_of start control1 control2 end raw.value }
{
    let points = CubicPoints {
        start,
        control1,
        control2,
        end,
    };
    points.sample(raw)
}

// The direction and speed at a raw parameter.
pub fn cubic_derivative(
    start: Point,
    control1: Point,
    control2: Point,
    end: Point,
    raw: RawParameter,
) -> Point
    ensures { result ≡ cubic_derivative_of start control1 control2 end raw.value }
{
    let points = CubicPoints {
        start,
        control1,
        control2,
        end,
    };
    points.derivative(raw)
}

// The distances from each of the 32 samples to the next.
fn cubic_steps(start: Point, control1: Point, control2: Point, end: Point) -> [f32; 31]
    ensures { result ≡ steps_of (cubic_sample_of start control1 control2 end) 31 }
{
    let x = cubic_differences(start.x, control1.x, control2.x, end.x);
    let y = cubic_differences(start.y, control1.y, control2.y, end.y);
    let mut steps = [0.0f32; 31];
    lengths(&x, &y, &mut steps);
    steps
}

// The table of the curve.
pub fn cubic_table(start: Point, control1: Point, control2: Point, end: Point) -> Table
    ensures { result ≡ table_of (cubic_sample_of start control1 control2 end) }
{
    table_of(cubic_steps(start, control1, control2, end))
}

// A cubic with its table. A length that is infinite or a NaN is refused; a lone segment is segment 0.
#[tactic(auto, unfolding(crate::specs::Cubics::made_cubic_of, crate::specs::Cubics::cubic_of))]
pub fn cubic(
    start: Point,
    control1: Point,
    control2: Point,
    end: Point,
) -> Result<CubicBezierCurve, Refusal>
    ensures { result ≡ made_cubic_of start control1 control2 end }
{
    let table = cubic_table(start, control1, control2, end);
    verdict_of(table.total)?;
    Ok(CubicBezierCurve {
        start,
        control1,
        control2,
        end,
        table,
    })
}

// The points of a cubic, without its table.
pub(crate) fn points_of(curve: &CubicBezierCurve) -> CubicPoints
    ensures start { result.start ≡ curve.now.start }
    ensures control1 { result.control1 ≡ curve.now.control1 }
    ensures control2 { result.control2 ≡ curve.now.control2 }
    ensures end { result.end ≡ curve.now.end }
{
    CubicPoints {
        start: curve.start,
        control1: curve.control1,
        control2: curve.control2,
        end: curve.end,
    }
}

// Where a cubic heads at the raw parameter of a progress, over a lent table that is sound (`direction`).
#[tactic(auto, unfolding(crate::specs::Cubics::cubic_direction))]
pub fn cubic_direction(
    start: Point,
    control1: Point,
    control2: Point,
    end: Point,
    raw: RawParameter,
    entries: &[f32],
    total: f32,
    progress: Progress,
) -> Point
    requires { SoundTable entries.now total }
    ensures { result ≡ cubic_direction start control1 control2 end raw.value (raw_of entries.now total (ahead_of progress.value)) }
{
    let points = CubicPoints {
        start,
        control1,
        control2,
        end,
    };
    direction(&points, raw, entries, total, progress)
}

// The same over the cubic's own table, which is sound.
#[tactic(auto, unfolding(crate::specs::Cubics::cubic_tangent_at, crate::specs::Cubics::cubic_direction))]
pub fn cubic_tangent_at(curve: CubicBezierCurve, raw: RawParameter, progress: Progress) -> Point
    requires { T (table_is_sound curve.table.entries curve.table.total) }
    ensures { result ≡ cubic_tangent_at curve raw.value progress.value }
{
    tangent_at(&points_of(&curve), &curve.table, raw, progress)
}

// Where a cubic is at a progress. A table that is not sound is refused.
#[tactic(auto, unfolding(crate::specs::Cubics::cubic_placed_of, crate::specs::Cubics::cubic_position_of))]
pub fn cubic_position(curve: CubicBezierCurve, progress: Progress) -> Result<Point, Refusal>
    ensures { result ≡ cubic_placed_of curve progress.value }
{
    placed(&points_of(&curve), &curve.table, progress)
}

// Where a cubic heads at a progress, with the length 1, or (0, 0) where nothing tells. A table that is not sound is refused.
#[tactic(auto, unfolding(crate::specs::Cubics::cubic_heading_of, crate::specs::Cubics::cubic_tangent_of, crate::specs::Cubics::cubic_tangent_at, crate::specs::Cubics::cubic_direction))]
pub fn cubic_tangent(curve: CubicBezierCurve, progress: Progress) -> Result<Point, Refusal>
    ensures { result ≡ cubic_heading_of curve progress.value }
{
    headed(&points_of(&curve), &curve.table, progress)
}

// Where a cubic heads at a progress, in degrees from the x axis towards the y axis, or 0 where nothing tells. A table that is not
// sound is refused.
#[tactic(auto, unfolding(crate::specs::Cubics::cubic_turned_of, crate::specs::Cubics::cubic_tangent_of, crate::specs::Cubics::cubic_tangent_at, crate::specs::Cubics::cubic_direction))]
pub fn cubic_rotation_deg(curve: CubicBezierCurve, progress: Progress) -> Result<f32, Refusal>
    ensures { result ≡ cubic_turned_of curve progress.value }
{
    turned(&points_of(&curve), &curve.table, progress)
}

// How long a cubic is: its table's total.
pub fn cubic_length(curve: CubicBezierCurve) -> f32
    ensures { result ≡ curve.table.total }
{
    tidy(curve.table.total)
}
