// One record: a stored path of two segments, a distance, the length of the output, and what is answered and written.
ghost use Rattle.std.specs.Prelude.{◌<◌, length};

use answers::Refusal;
use flat::Tally;
use path_stored::PathBuffers;
use replay_records::{Count, first_of, float, lent, one, pattern, read_numbers, seen, two};
use std::io;
use std::io::Read;

// The bytes of a record: the kinds as two digits; 22 fields; how many of them there are, how many numbers of tables, all 0, the
// distance and the length of the output; the refusal's number, or 0, as two digits; the count of legs, or the value that the refusal
// carries; the flag as a digit; one pattern of the whole output afterwards (see `mixed`), of which a number that is not written is
// 77; and a line's end. All but the digits are patterns.
const RECORD: usize = 230;

// An odd factor, so that no difference is lost on the way.
const FACTOR: u64 = 16777619;

pub fn replay(reader: &mut impl Read, count: Count) -> io::Result<Count> {
    let mut record = [0u8; RECORD];
    let n = input::read_full(reader, &mut record)?;
    Ok(seen(count, agrees(&record[..n])))
}

// Whether a whole record holds what is answered and written.
fn agrees(line: &[u8]) -> bool {
    if line.len() < RECORD {
        return false;
    }
    let number = two(line, 210);
    let flag = one(line, 220);
    let kinds = [kind_at(line, 0), kind_at(line, 1)];
    let mut fields = [0.0f32; 22];
    read_numbers(line, 2, 8, &mut fields);
    let tables = [0.0f32; 66];
    let mut out = [77.0f32; 8192];
    let own = lent(pattern(line, 178), &fields);
    let more = lent(pattern(line, 186), &tables);
    let distance = float(pattern(line, 194));
    let wanted = pattern(line, 202);
    let value = pattern(line, 212);
    let due = pattern(line, 221);
    flattened_as(
        &kinds,
        &fields[..own],
        &tables[..more],
        distance,
        wanted,
        &mut out,
        number,
        value,
        flag,
        due,
    )
}

// Whether a path of two segments without lengths is flattened with this number, value and flag into so many places of an output, and
// the whole output then has this pattern.
fn flattened_as(
    kinds: &[u8],
    fields: &[f32],
    tables: &[f32],
    distance: f32,
    wanted: u32,
    out: &mut [f32],
    number: usize,
    value: u32,
    flag: usize,
    due: u32,
) -> bool {
    let lengths = [0.0f32; 2];
    let commands = [0u32; 2];
    let room = lent(wanted, out);
    let path = PathBuffers {
        kinds,
        fields,
        tables,
        lengths: &lengths,
        commands: &commands,
    };
    let flattened = legs::legs(path, distance, &mut out[..room]);
    answers_as(flattened, number, value, flag) & (mixed(out) == due as u64)
}

// The kind that a digit stands for.
fn kind_at(line: &[u8], at: usize) -> u8
    requires { at < length line.now }
{
    one(line, at) as u8
}

// Whether the number, the value and the flag are those of the answer.
fn answers_as(flattened: Result<Tally, Refusal>, number: usize, value: u32, flag: usize) -> bool {
    match flattened {
        Ok(tally) => {
            (number == 0) & (tally.legs == value as usize) & (flag == usize::from(tally.far))
        }
        Err(refusal) => {
            (number == refusal.number() as usize)
                & (first_of(refusal.carried()) == value as usize)
                & (flag == 0)
        }
    }
}

// One pattern of all numbers: for each, what is so far times an odd factor, and the number's bits, modulo 2 ^ 32. A change of any
// one number changes it.
fn mixed(numbers: &[f32]) -> u64
    ensures { result < 4294967296 }
{
    let mut sum = 0u64;
    for &number in numbers {
        sum = (sum * FACTOR + u64::from(floats::bits(number))) % 0x1_0000_0000;
    }
    sum
}
