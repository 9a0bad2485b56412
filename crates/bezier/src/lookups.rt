// The queries without their tests, for callers that know the table to be sound.
ghost use Rattle.std.specs.Prelude.{◌≡◌, T};
ghost use Rattle.table.specs.Sound.{table_is_sound};
ghost use Rattle.bezier.specs.Cubics.{cubic_position_of, cubic_tangent_of};
ghost use Rattle.bezier.specs.Quads.{quad_position_of, quad_tangent_of};

use crate::cubics::CubicBezierCurve;
use crate::quads::QuadBezier;
use crate::queries::{position, tangent};
use crate::{cubics, quads};
use math::Point;
use table::Progress;

// Where a quad is at a progress.
#[tactic(auto, unfolding(crate::specs::Quads::quad_position_of))]
pub fn quad_position(curve: QuadBezier, progress: Progress) -> Point
    requires { T (table_is_sound curve.table.entries curve.table.total) }
    ensures { result ≡ quad_position_of curve progress.value }
{
    position(&quads::points_of(&curve), &curve.table, progress)
}

// Where a quad heads at a progress.
#[tactic(auto, unfolding(crate::specs::Quads::quad_tangent_of, crate::specs::Quads::quad_tangent_at, crate::specs::Quads::quad_direction))]
pub fn quad_tangent(curve: QuadBezier, progress: Progress) -> Point
    requires { T (table_is_sound curve.table.entries curve.table.total) }
    ensures { result ≡ quad_tangent_of curve progress.value }
{
    tangent(&quads::points_of(&curve), &curve.table, progress)
}

// Where a cubic is at a progress.
#[tactic(auto, unfolding(crate::specs::Cubics::cubic_position_of))]
pub fn cubic_position(curve: CubicBezierCurve, progress: Progress) -> Point
    requires { T (table_is_sound curve.table.entries curve.table.total) }
    ensures { result ≡ cubic_position_of curve progress.value }
{
    position(&cubics::points_of(&curve), &curve.table, progress)
}

// Where a cubic heads at a progress.
#[tactic(auto, unfolding(crate::specs::Cubics::cubic_tangent_of, crate::specs::Cubics::cubic_tangent_at, crate::specs::Cubics::cubic_direction))]
pub fn cubic_tangent(curve: CubicBezierCurve, progress: Progress) -> Point
    requires { T (table_is_sound curve.table.entries curve.table.total) }
    ensures { result ≡ cubic_tangent_of curve progress.value }
{
    tangent(&cubics::points_of(&curve), &curve.table, progress)
}
