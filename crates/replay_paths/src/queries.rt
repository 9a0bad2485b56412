// Queries of a stored path: the Rust's answers, each progress by itself and all of a path as a batch.
ghost use Rattle.std.specs.Prelude.{◌≤◌};

use answers::Refusal;
use flight::Flight;
use path_stored::PathBuffers;
use path_storing::Sizes;
use replay_records::{Count, float, has_bits, pattern, same_point, seen, turned, two};
use std::io;
use std::io::Read;
use table::Progress;

// A block is a path and six progresses. Its first line has the text's length as two digits, the text, which has at most 90 bytes,
// and blanks up to 90; each further line has a progress, the segment there, counted from 0, or FFFFFFFF where the path has none,
// its raw parameter, the position, the tangent and the heading. All numbers are patterns of eight hexadecimal digits without
// blanks.
const BLOCK: usize = 483;

const FIRST: usize = 93;

const LINE: usize = 65;

const LINES: usize = 6;

pub fn replay(reader: &mut impl Read, count: Count) -> io::Result<Count> {
    let mut block = [0u8; BLOCK];
    let n = input::read_full(reader, &mut block)?;
    Ok(replay_block(count, &block[..n]))
}

// One answer for each line.
fn replay_block(count: Count, text: &[u8]) -> Count {
    let mut counted = count;
    for i in 0..LINES {
        counted = seen(counted, agrees(text, i));
    }
    counted
}

// Whether line i of a whole block, counted from 0, holds what its path answers, alone and in a batch with the others. The buffers
// have room for 8 segments of any kind.
fn agrees(text: &[u8], i: usize) -> bool {
    if text.len() < BLOCK {
        return false;
    }
    let size = two(text, 0);
    if 90 < size {
        return false;
    }
    let mut kinds = [0u8; 8];
    let mut fields = [0.0f32; 88];
    let mut tables = [0.0f32; 264];
    let mut lengths = [0.0f32; 8];
    let mut commands = [0u32; 8];
    let to = 2 + size;
    match path_text::build_from_text(
        &text[2..to],
        &mut kinds,
        &mut fields,
        &mut tables,
        &mut lengths,
        &mut commands,
    ) {
        Ok(sizes) => agrees_in(
            PathBuffers {
                kinds: &kinds,
                fields: &fields,
                tables: &tables,
                lengths: &lengths,
                commands: &commands,
            },
            sizes,
            text,
            i,
        ),
        Err(_) => false,
    }
}

// The same for a path that stands in so many places of these buffers.
fn agrees_in(room: PathBuffers, sizes: Sizes, text: &[u8], i: usize) -> bool {
    let Sizes {
        segments,
        fields,
        tables,
    } = sizes;
    if room.kinds.len() < segments {
        return false;
    }
    if room.fields.len() < fields {
        return false;
    }
    if room.tables.len() < tables {
        return false;
    }
    if room.lengths.len() < segments {
        return false;
    }
    if room.commands.len() < segments {
        return false;
    }
    agrees_on(
        PathBuffers {
            kinds: &room.kinds[..segments],
            fields: &room.fields[..fields],
            tables: &room.tables[..tables],
            lengths: &room.lengths[..segments],
            commands: &room.commands[..segments],
        },
        text,
        i,
    )
}

// The same for a stored path.
fn agrees_on(path: PathBuffers, text: &[u8], i: usize) -> bool {
    let progress = Progress {
        value: progress_at(text, i),
    };
    let flown = path_query::flight(path, progress);
    let heading = path_query::rotation_deg(path, progress);
    let progresses = [
        progress_at(text, 0),
        progress_at(text, 1),
        progress_at(text, 2),
        progress_at(text, 3),
        progress_at(text, 4),
        progress_at(text, 5),
    ];
    let mut columns = [77u32; 6];
    let mut others = [77.0f32; 6];
    let mut segments = [77u32; 6];
    let mut raws = [77.0f32; 6];
    let mut numbers = [77.0f32; 24];
    let places = path_batch::places(path, &progresses, &mut columns, &mut others);
    let flights = path_batch::flights(path, &progresses, &mut segments, &mut raws, &mut numbers);
    holds(flown, heading, text, i)
        && is_filled(places)
        && is_filled(flights)
        && has_place(&columns, &others, text, i)
        && has_place(&segments, &raws, text, i)
        && has_numbers(&numbers, text, i)
}

// Where line i stands; past the last line, where the first does.
fn line_at(i: usize) -> usize
    ensures { result ≤ 418 }
{
    if i < LINES { FIRST + i * LINE } else { FIRST }
}

// The progress of line i.
fn progress_at(text: &[u8], i: usize) -> f32 {
    float(pattern(text, line_at(i)))
}

// Whether a batch looked six progresses up.
fn is_filled(looked_up: Result<usize, Refusal>) -> bool {
    match looked_up {
        Ok(count) => count == LINES,
        Err(_) => false,
    }
}

// Whether line i holds what is flown, and the heading.
fn holds(
    flown: Result<Flight, Refusal>,
    heading: Result<f32, Refusal>,
    text: &[u8],
    i: usize,
) -> bool {
    let line = line_at(i);
    match flown {
        Ok(there) => {
            has_number(there.segment, pattern(text, line + 8))
                && has_bits(table::number_of(there.raw), pattern(text, line + 16))
                && same_point(
                    there.position,
                    pattern(text, line + 24),
                    pattern(text, line + 32),
                )
                && same_point(
                    there.tangent,
                    pattern(text, line + 40),
                    pattern(text, line + 48),
                )
                && turned(heading, 0, pattern(text, line + 56))
        }
        Err(_) => false,
    }
}

// Whether a segment has this number. FFFFFFFF is none.
fn has_number(found: Option<usize>, due: u32) -> bool {
    match found {
        Some(number) => number == due as usize,
        None => due == 0xffff_ffff,
    }
}

// Whether line i holds its segment and its raw parameter of a batch.
fn has_place(segments: &[u32; 6], raws: &[f32; 6], text: &[u8], i: usize) -> bool {
    let line = line_at(i);
    if i < LINES {
        segments[i] == pattern(text, line + 8) && has_bits(raws[i], pattern(text, line + 16))
    } else {
        false
    }
}

// Whether line i holds its position and its tangent of a batch.
fn has_numbers(numbers: &[f32; 24], text: &[u8], i: usize) -> bool {
    let line = line_at(i);
    if i < LINES {
        has_bits(numbers[4 * i], pattern(text, line + 24))
            && has_bits(numbers[4 * i + 1], pattern(text, line + 32))
            && has_bits(numbers[4 * i + 2], pattern(text, line + 40))
            && has_bits(numbers[4 * i + 3], pattern(text, line + 48))
    } else {
        false
    }
}
