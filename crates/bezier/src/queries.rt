// The queries of a curve, once for quads and cubics. The first four are for callers that know the table to be sound; the others judge it.
ghost use Rattle.std.specs.Prelude.{◌≡◌, T};
ghost use Rattle.angles.specs.Angles.{rotation_deg_of};
ghost use Rattle.table.specs.Lookup.{raw_of};
ghost use Rattle.table.specs.Sound.{SoundTable, table_is_sound};
ghost use Rattle.bezier.specs.Curves.{ahead_of, direction_by, placed_of, position_by, tangent_at_by, tangent_by, turned_of};

use crate::curves::{Curve, ahead, is_nothing};
use angles::rotation_deg;
use answers::Refusal;
use floats::tidy;
use math::{Point, normalize, sub, tidy_point};
use table::inner::{raw_parameter, raw_parameter_in};
use table::{Progress, RawParameter, Table, table_is_sound};

// Where a curve heads at the raw parameter of a progress, with the length 1: its derivative's direction, or where that is (0, 0), the
// direction to the place a thousandth further than the progress; that may be (0, 0) too. The table is lent: of a lone curve its own, of
// a stored path a part of the tables.
#[tactic(auto, unfolding(crate::specs::Curves::second_try))]
pub(crate) fn direction<C: Curve>(
    curve: &C,
    raw: RawParameter,
    entries: &[f32],
    total: f32,
    progress: Progress,
) -> Point
    requires { SoundTable entries.now total }
    ensures { result ≡ direction_by (C.sample curve.now) (C.derivative curve.now) raw.value (raw_of entries.now total (ahead_of progress.value)) }
{
    let first = normalize(curve.derivative(raw));
    if is_nothing(first) {
        let further = raw_parameter_in(entries, total, ahead(progress));
        let there = curve.sample(further);
        let here = curve.sample(raw);
        return normalize(sub(there, here));
    }
    first
}

// Where a curve is at a progress.
pub(crate) fn position<C: Curve>(curve: &C, table: &Table, progress: Progress) -> Point
    requires { T (table_is_sound table.now.entries table.now.total) }
    ensures { result ≡ position_by (C.sample curve.now) table.now progress.value }
{
    curve.sample(raw_parameter(*table, progress))
}

// Where a curve heads at the raw parameter of a progress.
pub(crate) fn tangent_at<C: Curve>(
    curve: &C,
    table: &Table,
    raw: RawParameter,
    progress: Progress,
) -> Point
    requires { T (table_is_sound table.now.entries table.now.total) }
    ensures { result ≡ tangent_at_by (C.sample curve.now) (C.derivative curve.now) table.now raw.value progress.value }
{
    direction(curve, raw, &table.entries, table.total, progress)
}

// Where a curve heads at a progress.
pub(crate) fn tangent<C: Curve>(curve: &C, table: &Table, progress: Progress) -> Point
    requires { T (table_is_sound table.now.entries table.now.total) }
    ensures { result ≡ tangent_by (C.sample curve.now) (C.derivative curve.now) table.now progress.value }
{
    tangent_at(curve, table, raw_parameter(*table, progress), progress)
}

// Where a curve is at a progress. A table that is not sound is refused.
#[tactic(auto, unfolding(crate::specs::Curves::placed_of))]
pub(crate) fn placed<C: Curve>(
    curve: &C,
    table: &Table,
    progress: Progress,
) -> Result<Point, Refusal>
    ensures { result ≡ placed_of table.now (position_by (C.sample curve.now) table.now progress.value) }
{
    if !table_is_sound(*table) {
        return Err(Refusal::BadPath);
    }
    Ok(tidy_point(position(curve, table, progress)))
}

// Where a curve heads at a progress, with the length 1, or (0, 0) where nothing tells. A table that is not sound is refused.
#[tactic(auto, unfolding(crate::specs::Curves::placed_of))]
pub(crate) fn headed<C: Curve>(
    curve: &C,
    table: &Table,
    progress: Progress,
) -> Result<Point, Refusal>
    ensures { result ≡ placed_of table.now (tangent_by (C.sample curve.now) (C.derivative curve.now) table.now progress.value) }
{
    if !table_is_sound(*table) {
        return Err(Refusal::BadPath);
    }
    Ok(tidy_point(tangent(curve, table, progress)))
}

// That heading in degrees from the x axis towards the y axis, or 0 where nothing tells. A table that is not sound is refused.
#[tactic(auto, unfolding(crate::specs::Curves::turned_of))]
pub(crate) fn turned<C: Curve>(curve: &C, table: &Table, progress: Progress) -> Result<f32, Refusal>
    ensures { result ≡ turned_of table.now (rotation_deg_of (tangent_by (C.sample curve.now) (C.derivative curve.now) table.now progress.value)) }
{
    if !table_is_sound(*table) {
        return Err(Refusal::BadPath);
    }
    Ok(tidy(rotation_deg(tangent(curve, table, progress))))
}
