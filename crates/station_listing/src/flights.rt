// A path that reads: built and listed.
ghost use Rattle.std.specs.Prelude.{◌≤◌, drop};
ghost use Rattle.station_lines.specs.Put.{PutWithin};
ghost use Rattle.path_stored.specs.Buffers.{before, lent};
ghost use Rattle.path_build.specs.Lists.{lent_list};
ghost use Rattle.station_sections.specs.Sections.{Ready};
ghost use Rattle.station_listing.specs.Stations.{plan_of, Held, Sized, Printed};

use path_build::build_path;
use path_stored::{PathBuffers, StoredPath};
use station_commands::inner::list;
use station_lines::inner::{put_header, put_refusal};
use station_sections::inner::{put_segments, put_stations};

// The three sections of a built path.
fn print(
    out: &mut [u8],
    input: &[u8],
    start: usize,
    places: usize,
    count: usize,
    kinds: &[u8],
    fields: &[f32],
    tables: &[f32],
    lengths: &[f32],
    commands: &[u32],
) -> usize
    requires { Sized (drop start input.now) places × Ready (lent kinds fields tables lengths commands) count }
    ensures { Printed (drop start input.now) (before kinds fields tables lengths commands) count out.old out.new result }
{
    let buffers = PathBuffers {
        kinds,
        fields,
        tables,
        lengths,
        commands,
    };
    let path = StoredPath { buffers };
    let past_commands = put_header(out, 0, b"commands", places);
    let past_lines = list(input, start, out, past_commands);
    let past_segments = put_header(out, past_lines, b"segments", kinds.len());
    let past_kinds = put_segments(out, past_segments, path.buffers);
    let past_stations = put_header(out, past_kinds, b"stations", count);
    put_stations(out, past_stations, count, path)
}

// The path whose commands these letters and numbers are: its listing, or why it is not built.
pub fn fly(
    out: &mut [u8],
    input: &[u8],
    start: usize,
    count: usize,
    letters: &[u8],
    numbers: &[f32],
) -> usize
    requires { Held (drop start input.now) (lent_list letters numbers) × (2 ≤ count) × (count ≤ 1000) }
    ensures { PutWithin 69632 (plan_of count (drop start input.now)) 0 out.old out.new result }
{
    let mut kinds = [0u8; 256];
    let mut fields = [0.0f32; 2816];
    let mut tables = [0.0f32; 8448];
    let mut lengths = [0.0f32; 256];
    let mut commands = [0u32; 256];
    match build_path(
        letters,
        numbers,
        &mut kinds,
        &mut fields,
        &mut tables,
        &mut lengths,
        &mut commands,
    ) {
        Ok(sizes) => {
            print(
                out,
                input,
                start,
                letters.len(),
                count,
                &kinds[..sizes.segments],
                &fields[..sizes.fields],
                &tables[..sizes.tables],
                &lengths[..sizes.segments],
                &commands[..sizes.segments],
            )
        }
        Err(refusal) => put_refusal(out, 0, refusal),
    }
}
