// Building: the answers of the Rust, and what the buffers hold afterwards.
ghost use Rattle.std.specs.Prelude.{◌+◌, ◌≤◌, ◌<◌, length};

use answers::{Refusal, Values};
use path_storing::Sizes;
use replay_records::{Count, pattern, same_bytes, seen, three, two};
use std::io;
use std::io::Read;

// The bytes of a record: the text's length as two digits; the text, which has at most 90 bytes, and
// blanks up to 90; the refusal's number, or 0, as two digits, and three values as three digits each,
// the counts of kinds, fields and tables where the path is built; the whole length's pattern; what the
// buffers hold afterwards, 8 kinds and one pattern of all numbers, those of the commands last (see
// `mixed`); and a line's end.
const RECORD: usize = 128;

// An odd factor, so that no difference is lost on the way.
const FACTOR: u64 = 16777619;

pub fn replay(reader: &mut impl Read, count: Count) -> io::Result<Count> {
    let mut record = [0u8; RECORD];
    let n = input::read_full(reader, &mut record)?;
    Ok(seen(count, agrees(&record[..n])))
}

// Whether a whole record holds what building answers and writes. The buffers have room for 8 segments
// of any kind; a place that is not written holds 9 or 77.
fn agrees(line: &[u8]) -> bool {
    if line.len() < RECORD {
        return false;
    }
    let size = two(line, 0);
    let due = pattern(line, 119) as u64;
    if 90 < size {
        return false;
    }
    let mut kinds = [9u8; 8];
    let mut fields = [77.0f32; 88];
    let mut tables = [77.0f32; 264];
    let mut lengths = [77.0f32; 8];
    let mut commands = [77u32; 8];
    let to = 2 + size;
    let built = path_text::build_from_text(
        &line[2..to],
        &mut kinds,
        &mut fields,
        &mut tables,
        &mut lengths,
        &mut commands,
    );
    let answered = answers_as(built, &lengths, line, 92);
    let of_kinds = same_bytes(&kinds, b'0', line, 111);
    let sum = numbered(
        mixed(mixed(mixed(0, &fields), &tables), &lengths),
        &commands,
    );
    answered & of_kinds & (sum == due)
}

// One pattern for a pattern before and all these numbers: for each, what is so far times an odd factor,
// and the number's bits, modulo 2 ^ 32. A change of any one number changes it.
fn mixed(before: u64, numbers: &[f32]) -> u64
    requires { before < 4294967296 }
    ensures { result < 4294967296 }
{
    let mut sum = before;
    for &number in numbers {
        sum = (sum * FACTOR + u64::from(floats::bits(number))) % 0x1_0000_0000;
    }
    sum
}

// The same for whole numbers.
fn numbered(before: u64, numbers: &[u32]) -> u64
    requires { before < 4294967296 }
    ensures { result < 4294967296 }
{
    let mut sum = before;
    for &number in numbers {
        sum = (sum * FACTOR + u64::from(number)) % 0x1_0000_0000;
    }
    sum
}

// Whether the number, the values and the whole length at this place are those of what was built.
fn answers_as(built: Result<Sizes, Refusal>, lengths: &[f32], line: &[u8], at: usize) -> bool
    requires { at + 19 ≤ length line.now }
{
    let number = two(line, at);
    let whole = pattern(line, at + 11);
    match built {
        Ok(
            Sizes {
                segments,
                fields,
                tables,
            },
        ) => {
            let counted = has(segments, fields, tables, line, at + 2);
            (number == 0) & counted & (whole_length(lengths, segments) == whole)
        }
        Err(refusal) => {
            let carried = carries(refusal.carried(), line, at + 2);
            (number == refusal.number() as usize) & carried & (whole == 0)
        }
    }
}

// The bits of the last running length, and of 0 where there is none.
fn whole_length(lengths: &[f32], segments: usize) -> u32 {
    if segments == 0 {
        return 0;
    }
    let last = segments - 1;
    if last < lengths.len() {
        floats::bits(lengths[last])
    } else {
        0
    }
}

// Whether the values at this place are those that a refusal carries, zeros after them. The fourth and
// the fifth, of the running lengths and of the command numbers, are as many as the kinds.
fn carries(values: Values, line: &[u8], at: usize) -> bool
    requires { at + 9 ≤ length line.now }
{
    match values {
        Values::Nothing => has(0, 0, 0, line, at),
        Values::One(a) => has(a, 0, 0, line, at),
        Values::Two(a, b) => has(a, b, 0, line, at),
        Values::Five(a, b, c, d, e) => has(a, b, c, line, at) & (a == d) & (a == e),
        _ => false,
    }
}

fn has(a: usize, b: usize, c: usize, line: &[u8], at: usize) -> bool
    requires { at + 9 ≤ length line.now }
{
    let first = three(line, at);
    let second = three(line, at + 3);
    let third = three(line, at + 6);
    (first == a) & (second == b) & (third == c)
}
