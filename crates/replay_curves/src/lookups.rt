// Lookups of a progress: the Rust's answers.
ghost use Rattle.std.specs.Prelude.{◌+◌, ◌≤◌};

use crate::rows::numbers_at;
use answers::Refusal;
use replay_records::{Count, float, has_bits, lent, pattern, seen};
use std::io;
use std::io::Read;
use table::{Progress, RawParameter, Spot, Table};

// A block has running lengths and 16 lookups. Its first line has a letter (t: a table by value, e: a
// table's entries, p: a path), the count of lengths, 32 lengths and the total; each further line has
// a progress, the refusal's number or 0, and two places for what is given. All are patterns of eight
// hexadecimal digits.
const BLOCK: usize = 884;

const FIRST: usize = 308;

const LINE: usize = 36;

const LINES: usize = 16;

pub fn replay(reader: &mut impl Read, count: Count) -> io::Result<Count> {
    let mut block = [0u8; BLOCK];
    let n = input::read_full(reader, &mut block)?;
    Ok(replay_block(count, &block[..n]))
}

// One answer for each line.
fn replay_block(count: Count, text: &[u8]) -> Count {
    let mut counted = count;
    for i in 0..LINES {
        counted = seen(counted, agrees(text, FIRST + i * LINE));
    }
    counted
}

// Whether the lookup in the line at `line` of a whole block gives what is recorded.
fn agrees(text: &[u8], line: usize) -> bool
    requires { line + 36 ≤ 884 }
{
    if text.len() < BLOCK {
        return false;
    }
    let lengths = numbers_at::<32>(text, 11);
    let total = float(pattern(text, 299));
    let count = lent(pattern(text, 2), &lengths);
    let progress = Progress {
        value: float(pattern(text, line)),
    };
    let number = pattern(text, line + 9);
    let first = pattern(text, line + 18);
    let second = pattern(text, line + 27);
    match text[0] {
        b't' => {
            let table = Table {
                entries: lengths,
                total,
            };
            looked(table::raw_parameter(table, progress), number, first)
        }
        b'e' => looked(
            table::raw_parameter_in(&lengths[..count], total, progress),
            number,
            first,
        ),
        b'p' => spotted(
            table::spot(&lengths[..count], progress),
            number,
            first,
            second,
        ),
        _ => false,
    }
}

fn looked(found: Result<RawParameter, Refusal>, number: u32, first: u32) -> bool {
    match found {
        Ok(raw) => number == 0 && has_bits(table::number_of(raw), first),
        Err(refusal) => refusal.number() == number,
    }
}

fn spotted(found: Result<Option<Spot>, Refusal>, number: u32, first: u32, second: u32) -> bool {
    match found {
        Ok(Some(spot)) => {
            number == 0 && spot.segment == first as usize && has_bits(spot.progress.value, second)
        }
        Ok(None) => number == 0,
        Err(refusal) => refusal.number() == number,
    }
}
