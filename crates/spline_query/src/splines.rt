// A spline that is known to be stored. Its queries test nothing, and refuse nothing.
ghost use Rattle.std.specs.Prelude.{◌≡◌, true};
ghost use Rattle.spline_query.specs.Queries.{SoundSpline, spline_is_sound, spline_total, spline_raw, spline_flight_of};

use flight::Flight;
use math::tidy_point;
use spline::inner::{direction, sample};
use table::inner::raw_parameter_in;
use table::{Progress, RawParameter};

// The points, two numbers each, and the table that `spline_table` made for them: what passed `spline_is_sound`.
#[derive(Clone, Copy)]
pub struct StoredSpline<'a> {
    pub points: &'a [f32],
    pub table: &'a [f32],
    pub ghost sound: { SoundSpline points.now table.now },
}

impl<'a> StoredSpline<'a> {
    // A spline that passed the check. A Result of it would lay its pointers where a refusal has bytes, which modules for 32-bit
    // processors must not (DECISIONS 222), so that each entry asks `spline_is_sound` and returns early.
    pub fn known(points: &'a [f32], table: &'a [f32]) -> StoredSpline<'a>
        requires { spline_is_sound points.now table.now ≡ true }
        ensures points { result.points ≡ points.entry }
        ensures table { result.table ≡ table.entry }
    {
        StoredSpline { points, table }
    }

    // How long the spline is: its last entry.
    pub fn arc_length(self) -> f32
        ensures { result ≡ spline_total self.entry.table.now }
    {
        self.table[self.table.len() - 1]
    }

    // The raw parameter of a progress.
    pub fn raw(self, progress: Progress) -> RawParameter
        ensures { result.value ≡ spline_raw self.entry.table.now progress.value }
    {
        raw_parameter_in(self.table, self.arc_length(), progress)
    }

    // What is flown at a progress: the sample and the direction at one raw parameter. A spline is one segment.
    #[tactic(auto, unfolding(crate::specs::Queries::spline_flight_of))]
    pub fn flight(self, progress: Progress) -> Flight
        ensures { result ≡ spline_flight_of self.entry.points.now self.entry.table.now progress.value }
    {
        let at = self.raw(progress);
        let position = tidy_point(sample(self.points, at));
        let tangent = tidy_point(direction(self.points, at));
        Flight {
            position,
            tangent,
            segment: Some(0),
            raw: at,
        }
    }
}
