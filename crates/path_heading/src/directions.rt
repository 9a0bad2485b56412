// The directions of quads and cubics whose table starts at `first` of the tables. Both lend the same part of it; one function over the
// curve would be as long as the two.
ghost use Rattle.std.specs.Prelude.{◌≡◌};
ghost use Rattle.bezier.specs.Curves.{ahead_of};
ghost use Rattle.bezier.specs.Cubics.{cubic_direction};
ghost use Rattle.bezier.specs.Quads.{quad_direction};
ghost use Rattle.path_place.specs.Places.{TableThere, raw_in};

use bezier::inner::{cubic_direction, quad_direction};
use math::Point;
use table::{Progress, RawParameter};

pub(crate) fn quad_heading(
    start: Point,
    control: Point,
    end: Point,
    tables: &[f32],
    first: usize,
    along: Progress,
    raw: RawParameter,
) -> Point
    requires { TableThere tables.now first }
    ensures { result ≡ quad_direction start control end raw.value (raw_in tables.now first (ahead_of along.value)) }
{
    let last = first + 32;
    let total = tables[last];
    quad_direction(start, control, end, raw, &tables[first..last], total, along)
}

pub(crate) fn cubic_heading(
    start: Point,
    control1: Point,
    control2: Point,
    end: Point,
    tables: &[f32],
    first: usize,
    along: Progress,
    raw: RawParameter,
) -> Point
    requires { TableThere tables.now first }
    ensures { result ≡ cubic_direction start control1 control2 end raw.value (raw_in tables.now first (ahead_of along.value)) }
{
    let last = first + 32;
    let total = tables[last];
    cubic_direction(
        start,
        control1,
        control2,
        end,
        raw,
        &tables[first..last],
        total,
        along,
    )
}
