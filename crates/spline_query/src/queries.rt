// The entries: each judges the spline that it is given and refuses what is not sound.
ghost use Rattle.std.specs.Prelude.{◌≡◌};
ghost use Rattle.spline_query.specs.Ordered.{SplineOrdered};
ghost use Rattle.spline_query.specs.Queries.{spline_flown_of, spline_turned_of, spline_measured_of};

use crate::soundness::spline_is_sound;
use crate::splines::StoredSpline;
use angles::rotation_deg;
use answers::Refusal;
use flight::Flight;
use floats::tidy;
use table::Progress;

// Where a spline is at a progress, where it heads, and the pair at which both were taken. The segment is 0, also without points;
// below two points the raw parameter is the clamped progress, the position the point itself or (0, 0), the tangent (0, 0). An
// unsound spline is refused.
#[tactic(auto, unfolding(crate::specs::Queries::spline_flown_of))]
pub fn spline_flight(points: &[f32], table: &[f32], progress: Progress) -> Result<Flight, Refusal>
    ensures value { result ≡ spline_flown_of points.now table.now progress.value }
    ensures spline_ordered { SplineOrdered result points.now table.now }
{
    if !spline_is_sound(points, table) {
        return Err(Refusal::BadPath);
    }
    let spline = StoredSpline::known(points, table);
    Ok(spline.flight(progress))
}

// Where a spline heads at a progress, in degrees from the x axis towards the y axis, or 0 where nothing tells. An unsound spline
// is refused.
#[tactic(auto, unfolding(crate::specs::Queries::spline_turned_of))]
pub fn spline_rotation_deg(
    points: &[f32],
    table: &[f32],
    progress: Progress,
) -> Result<f32, Refusal>
    ensures { result ≡ spline_turned_of points.now table.now progress.value }
{
    if !spline_is_sound(points, table) {
        return Err(Refusal::BadPath);
    }
    let spline = StoredSpline::known(points, table);
    Ok(tidy(rotation_deg(spline.flight(progress).tangent)))
}

// How long a spline is, in path units: its last entry. An unsound spline is refused.
#[tactic(auto, unfolding(crate::specs::Queries::spline_measured_of))]
pub fn spline_length(points: &[f32], table: &[f32]) -> Result<f32, Refusal>
    ensures { result ≡ spline_measured_of points.now table.now }
{
    if !spline_is_sound(points, table) {
        return Err(Refusal::BadPath);
    }
    let spline = StoredSpline::known(points, table);
    Ok(tidy(spline.arc_length()))
}
