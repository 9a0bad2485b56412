// The query without the check, for callers that know the path to be a stored one.
ghost use Rattle.std.specs.Prelude.{◌≡◌, ◌<◌, length};
ghost use Rattle.path_stored.specs.Paths.{held};
ghost use Rattle.path_stored.specs.Stored.{segment_in};
ghost use Rattle.path_query.specs.Flights.{Seated, flight_of, flown_of, flown_within, nowhere_f};

use flight::Flight;
use math::{Point, tidy_point};
use path_heading::inner::heading;
use path_heading::sample;
use path_place::Cursor;
use path_place::inner::{cursor_at, raw_within};
use path_segment::PathSegment;
use path_segment::inner::segment_at;
use path_stored::{PathBuffers, StoredPath};
use table::Progress;
use table::inner::{raw_parameter_in, spot};

// The segment at which a cursor stands.
fn segment_here(path: PathBuffers, at: Cursor) -> PathSegment
    requires { Seated path.kinds.now path.fields.now path.tables.now at }
    ensures { result ≡ segment_in path.entry.kinds.now path.entry.fields.now at.segment }
{
    segment_at(path.kinds[at.segment], path.fields, at.fields)
}

// What is flown at a local progress on the segment at which a cursor stands. The running lengths and the command numbers are not read.
pub fn flown_within(path: PathBuffers, at: Cursor, along: Progress) -> Flight
    requires { Seated path.kinds.now path.fields.now path.tables.now at }
    ensures { result ≡ flown_within path.entry.kinds.now path.entry.fields.now path.entry.tables.now at.segment along.value }
{
    let segment = segment_here(path, at);
    let raw = raw_within(path.kinds, path.tables, at, along);
    let position = tidy_point(sample(segment, raw));
    let tangent = tidy_point(heading(segment, path.tables, at.tables, along, raw));
    Flight {
        position,
        tangent,
        segment: Some(at.segment),
        raw,
    }
}

// What is flown at a progress along a path with a segment.
fn flown(path: StoredPath, progress: Progress) -> Flight
    requires { 0 < length path.buffers.kinds.now }
    ensures { result ≡ flown_of (held path.entry.buffers) progress.value }
{
    let buffers = path.buffers;
    let found = spot(buffers.lengths, progress);
    let at = cursor_at(buffers.kinds, found.segment);
    flown_within(buffers, at, found.progress)
}

// What is flown on a path without segments: nothing, at (0, 0), with the raw parameter 0.
pub fn nowhere() -> Flight
    ensures { result ≡ nowhere_f }
{
    let origin = Point { x: 0.0, y: 0.0 };
    let single = [0.0f32; 1];
    let raw = raw_parameter_in(&single, 0.0, Progress { value: 0.0 });
    Flight {
        position: origin,
        tangent: origin,
        segment: None,
        raw,
    }
}

// What is flown at a progress.
#[tactic(auto, unfolding(crate::specs::Flights::flight_of))]
pub fn flight(path: StoredPath, progress: Progress) -> Flight
    ensures { result ≡ flight_of (held path.entry.buffers) progress.value }
{
    if path.buffers.kinds.is_empty() {
        return nowhere();
    }
    flown(path, progress)
}
