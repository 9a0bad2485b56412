// Permissive reading: the answers of the Rust's reader, and what the buffers hold afterwards.
ghost use Rattle.std.specs.Prelude.{◌+◌, ◌≤◌, length};

use answers::{Refusal, Values};
use replay_records::{Count, first_of, one, same_bytes, same_numbers, seen, three, two};
use std::io;
use std::io::Read;
use svg::Counts;

// The bytes of a record: the text's length as two digits; the text, which has at most 32 bytes, and
// blanks up to 32; the refusal's number, or 0, and three values as three digits each; what the buffers
// hold afterwards, 6 letters, 6 offsets as two digits each and 8 numbers as patterns; a blank and a
// line's end.
const RECORD: usize = 128;

pub fn replay(reader: &mut impl Read, count: Count) -> io::Result<Count> {
    let mut record = [0u8; RECORD];
    let n = input::read_full(reader, &mut record)?;
    Ok(seen(count, agrees(&record[..n])))
}

// Whether a whole record holds what the reader answers and writes. A place that is not written holds a
// blank or 77.
fn agrees(line: &[u8]) -> bool {
    if line.len() < RECORD {
        return false;
    }
    let size = two(line, 0);
    if 32 < size {
        return false;
    }
    let mut letters = [b' '; 6];
    let mut numbers = [77.0f32; 8];
    let mut offsets = [77u32; 6];
    let to = 2 + size;
    let read = svg::read_path(&line[2..to], &mut letters, &mut numbers, &mut offsets);
    let answered = answers_as(read, line, 34);
    let lettered = same_bytes(&letters, 0, line, 44);
    let offset = same_offsets(offsets, line, 50);
    let numbered = same_numbers(&numbers, line, 62, 8);
    answered & lettered & offset & numbered
}

// Whether an offset is that of the two digits at this place.
fn marked(offset: u32, line: &[u8], at: usize) -> bool
    requires { at + 2 ≤ length line.now }
{
    offset as usize == two(line, at)
}

// Whether the offsets are the six at this place.
fn same_offsets(offsets: [u32; 6], line: &[u8], at: usize) -> bool
    requires { at + 12 ≤ length line.now }
{
    let first = marked(offsets[0], line, at) & marked(offsets[1], line, at + 2);
    let second = marked(offsets[2], line, at + 4) & marked(offsets[3], line, at + 6);
    let third = marked(offsets[4], line, at + 8) & marked(offsets[5], line, at + 10);
    first & second & third
}

// Whether the number and the three values at this place are the reader's.
fn answers_as(read: Result<Counts, Refusal>, line: &[u8], at: usize) -> bool
    requires { at + 10 ≤ length line.now }
{
    match read {
        Ok(counts) => same_answer(
            0,
            Values::Three(counts.letters, counts.numbers, counts.letters),
            line,
            at,
        ),
        Err(refusal) => same_answer(refusal.number(), refusal.carried(), line, at),
    }
}

fn same_answer(number: u32, values: Values, line: &[u8], at: usize) -> bool
    requires { at + 10 ≤ length line.now }
{
    let a = three(line, at + 1);
    let b = three(line, at + 4);
    let c = three(line, at + 7);
    let same = number as usize == one(line, at);
    match values {
        Values::Nothing => false,
        Values::One(x) => same & (x == a) & (b == 0) & (c == 0),
        Values::Two(x, y) => same & (x == a) & (y == b) & (c == 0),
        Values::Three(x, y, z) => same & (x == a) & (y == b) & (z == c),
        Values::Four(_, _, _, _) => false,
        Values::Five(_, _, _, _, _) => false,
    }
}

// Two texts of spaces: 65,536 of them are read, 65,537 are too long.
pub fn replay_spaces(count: Count) -> Count {
    let spaces = [b' '; 65537];
    let whole = seen(count, reads_as(&spaces[..65536], 0, 0));
    seen(whole, reads_as(&spaces, 1, 65537))
}

// Whether a text has the answer of this number with this first value.
fn reads_as(text: &[u8], number: u32, value: usize) -> bool {
    let mut letters = [b' '; 6];
    let mut numbers = [77.0f32; 8];
    let mut offsets = [77u32; 6];
    match svg::read_path(text, &mut letters, &mut numbers, &mut offsets) {
        Ok(counts) => (number == 0) & (counts.letters == value),
        Err(refusal) => (refusal.number() == number) & (first_of(refusal.carried()) == value),
    }
}
