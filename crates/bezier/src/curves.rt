// What quads and cubics share: the formula that a query asks, the verdict on a curve, and the second try at a direction.
ghost use Rattle.std.specs.Prelude.{◌≡◌, Float};
ghost use Rattle.math.specs.declared.points.Point.{Point};
ghost use Rattle.bezier.specs.Curves.{ahead_of, is_nothing, verdict_of};

use answers::Refusal;
use floats::min;
use math::Point;
use table::{Progress, RawParameter};

// A curve by its formula. The queries are written once, for whatever has one.
pub(crate) trait Curve {
    ghost sample: { Self → Float → Point };

    ghost derivative: { Self → Float → Point };

    // The point at a raw parameter.
    fn sample(&self, raw: RawParameter) -> Point
        ensures { result ≡ sample self.now raw.value };

    // The direction and speed at a raw parameter.
    fn derivative(&self, raw: RawParameter) -> Point
        ensures { result ≡ derivative self.now raw.value };
}

// Whether p is (0, 0), of either sign.
#[tactic(auto, unfolding(crate::specs::Curves::is_nothing, floats::specs::Floats::zero_f))]
pub fn is_nothing(p: Point) -> bool
    ensures { result ≡ is_nothing p }
{
    p.x == 0.0 && p.y == 0.0
}

// A thousandth further, at most at the end. A NaN is at the end. It stands beside `table::later`: each is one line, and their types keep
// a progress and a raw parameter from being mixed.
#[tactic(auto, unfolding(crate::specs::Curves::ahead_of, floats::specs::Floats::one_f, table::specs::Lookup::thousandth_f))]
pub fn ahead(progress: Progress) -> Progress
    ensures { result.value ≡ ahead_of progress.value }
{
    Progress {
        value: min(progress.value + 0.001, 1.0),
    }
}

// What a lone curve of this total answers: it is segment 0. Only a finite number less itself is 0.
pub fn verdict_of(total: f32) -> Result<(), Refusal>
    ensures { result ≡ verdict_of total }
{
    if total - total == 0.0 {
        return Ok(());
    }
    Err(Refusal::NotFinite(0))
}
