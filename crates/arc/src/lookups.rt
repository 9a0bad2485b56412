// The queries of an arc without their tests, for callers that know the table to be sound.
ghost use Rattle.std.specs.Prelude.{◌≡◌, T};
ghost use Rattle.table.specs.Sound.{table_is_sound};
ghost use Rattle.arc.specs.Arcs.{arc_position_of, arc_tangent_of};

use crate::arcs::{arc_heading, arc_sample};
use ellipse::Arc;
use math::Point;
use table::inner::raw_parameter;
use table::{Progress, Table};

// Where an arc is at a progress.
#[tactic(auto, unfolding(crate::specs::Arcs::arc_position_of))]
pub fn arc_position(shape: Arc, table: Table, progress: Progress) -> Point
    requires { T (table_is_sound table.entries table.total) }
    ensures { result ≡ arc_position_of shape table progress.value }
{
    let raw = raw_parameter(table, progress);
    arc_sample(shape, raw)
}

// Where an arc heads at a progress, with the length 1, or (0, 0) where its derivative is too short.
#[tactic(auto, unfolding(crate::specs::Arcs::arc_tangent_of))]
pub fn arc_tangent(shape: Arc, table: Table, progress: Progress) -> Point
    requires { T (table_is_sound table.entries table.total) }
    ensures { result ≡ arc_tangent_of shape table progress.value }
{
    let raw = raw_parameter(table, progress);
    arc_heading(shape, raw)
}
