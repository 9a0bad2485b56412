// The functions ask that a path has at most 256 segments, and that their lines end within the places of a listing.
ghost use Rattle.std.specs.Prelude.{◌≡◌, ◌+◌, ◌≤◌, ◌<◌, length};
ghost use Rattle.path_stored.specs.Paths.{held};
ghost use Rattle.station_lines.specs.Put.{PutWithin};
ghost use Rattle.station_sections.specs.Sections.{Ready, Tellable, progress_of, segment_lines, station_of, station_lines};

use path_query::inner::flight;
use path_stored::{PathBuffers, StoredPath};
use station_lines::inner::{put_segment, put_station};
use table::Progress;

// A line for each segment.
pub fn put_segments(out: &mut [u8], from: usize, path: PathBuffers) -> usize
    requires { Tellable path.kinds.now path.lengths.now path.commands.now × (from + 5632 ≤ 69632) }
    ensures { PutWithin 5632 (segment_lines path.entry.kinds.now path.entry.lengths.now path.entry.commands.now) from out.old out.new result }
{
    let PathBuffers {
        kinds,
        lengths,
        commands,
        ..
    } = path;
    let mut at = from;
    for (k, &kind) in kinds.iter().enumerate() {
        at = put_segment(out, at, kind, lengths[k], commands[k] as usize);
    }
    at
}

// The progress of a station, counted from 0, of so many: the first is at 0 and the last at 1.
fn progress(number: usize, count: usize) -> Progress
    requires { (number < count) × (2 ≤ count) × (count ≤ 1000) }
    ensures { result.value ≡ progress_of count number }
{
    let last = count - 1;
    Progress {
        value: number as f32 / last as f32,
    }
}

// One station: what is flown at its progress.
fn put_one(out: &mut [u8], at: usize, number: usize, count: usize, path: StoredPath) -> usize
    requires { Ready (held path.buffers) count × (number < count) × (at + 44 ≤ 69632) }
    ensures { PutWithin 44 (station_of (held path.entry.buffers) count number) at out.old out.new result }
{
    let there = flight(path, progress(number, count));
    put_station(
        out,
        at,
        number,
        there.segment,
        there.position,
        there.tangent,
    )
}

// A line for each station.
pub fn put_stations(out: &mut [u8], from: usize, count: usize, path: StoredPath) -> usize
    requires { Ready (held path.buffers) count × (from + 44000 ≤ 69632) }
    ensures { PutWithin 44000 (station_lines (held path.entry.buffers) count) from out.old out.new result }
{
    let mut at = from;
    for number in 0..count {
        at = put_one(out, at, number, count, path);
    }
    at
}
