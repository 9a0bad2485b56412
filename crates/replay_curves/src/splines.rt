// Splines: the tables that the Rust makes, and what it answers.
ghost use Rattle.std.specs.Prelude.{◌+◌, ◌≤◌, length};

use crate::rows::numbers_at;
use answers::Refusal;
use flight::Flight;
use replay_records::{Count, first_of, float, has_bits, lent, pattern, same_point, seen, turned};
use std::io;
use std::io::Read;
use table::{Progress, number_of};

// A block has points and five answers. Its first line has the count of the points' numbers, nine
// numbers, the places lent for the table, the refusal's number or 0, what goes with that, and the
// size of the table that is asked; the second has eight places of the lent table and what stands
// there afterwards; the third a place that is then damaged, if it is below 64, and by what. Each of
// the last four has a progress, the refusal's number or 0, position, tangent, heading, length and raw
// parameter. All are patterns of eight hexadecimal digits.
const BLOCK: usize = 612;

const FIRST: usize = 288;

const LINE: usize = 81;

const LINES: usize = 4;

pub fn replay(reader: &mut impl Read, count: Count) -> io::Result<Count> {
    let mut block = [0u8; BLOCK];
    let n = input::read_full(reader, &mut block)?;
    Ok(replay_block(count, &block[..n]))
}

// One answer for the table, and one for each of the last lines.
fn replay_block(count: Count, text: &[u8]) -> Count {
    let mut counted = seen(count, makes(text));
    for i in 0..LINES {
        counted = seen(counted, agrees(text, FIRST + i * LINE));
    }
    counted
}

// What making a table answered, and the places it was lent a part of, zeros where nothing was stored.
#[derive(Clone, Copy)]
struct Made {
    answer: Result<usize, Refusal>,
    table: [f32; 64],
}

// Makes the table of a block's points in the places that it lends.
fn made_of(text: &[u8]) -> Made {
    let numbers = numbers_at::<9>(text, 9);
    let count = lent(pattern(text, 0), &numbers);
    let mut table = [0.0f32; 64];
    let room = lent(pattern(text, 90), &table);
    let answer = spline_table::spline_table(&numbers[..count], &mut table[..room]);
    Made { answer, table }
}

// Whether making the table of a whole block answers and stores what is recorded.
fn makes(text: &[u8]) -> bool {
    if text.len() < BLOCK {
        return false;
    }
    let made = made_of(text);
    let answer = made.answer;
    let table = made.table;
    tabled(answer, pattern(text, 99), pattern(text, 108)) & entries_agree(text, 126, table)
}

// Whether the line at `line` of a whole block holds what is answered over its table, which may be damaged.
fn agrees(text: &[u8], line: usize) -> bool
    requires { line + 81 ≤ 612 }
{
    if text.len() < BLOCK {
        return false;
    }
    let made = made_of(text);
    let whole = made.table;
    let table = damaged(whole, pattern(text, 270), float(pattern(text, 279)));
    let numbers = numbers_at::<9>(text, 9);
    let count = lent(pattern(text, 0), &numbers);
    let size = lent(pattern(text, 117), &table);
    told(text, line, &numbers[..count], &table[..size])
}

fn tabled(found: Result<usize, Refusal>, number: u32, value: u32) -> bool {
    match found {
        Ok(count) => number == 0 && count == value as usize,
        Err(refusal) => {
            refusal.number() == number && first_of(refusal.carried()) == value as usize
        }
    }
}

// Whether eight places of the table hold what is recorded.
fn entries_agree(text: &[u8], at: usize, table: [f32; 64]) -> bool
    requires { at + 144 ≤ length text.now }
{
    for i in 0..8usize {
        if !entry_agrees(
            table,
            pattern(text, at + i * 18),
            pattern(text, at + i * 18 + 9),
        ) {
            return false;
        }
    }
    true
}

// Whether there is such an entry and it holds these bits.
fn entry_agrees(table: [f32; 64], entry: u32, due: u32) -> bool {
    if entry < 64 {
        has_bits(table[entry as usize], due)
    } else {
        false
    }
}

// The table with one entry damaged, if there is such an entry.
fn damaged(table: [f32; 64], entry: u32, by: f32) -> [f32; 64] {
    let mut other = table;
    if entry < 64 {
        other[entry as usize] = by;
    }
    other
}

// Whether position, tangent, raw parameter, heading and length are those of the line at `line`.
fn told(text: &[u8], line: usize, numbers: &[f32], table: &[f32]) -> bool
    requires { line + 81 ≤ length text.now }
{
    let progress = Progress {
        value: float(pattern(text, line)),
    };
    let number = pattern(text, line + 9);
    if !flown(
        spline_query::spline_flight(numbers, table, progress),
        number,
        text,
        line + 18,
        pattern(text, line + 72),
    ) {
        return false;
    }
    if !turned(
        spline_query::spline_rotation_deg(numbers, table, progress),
        number,
        pattern(text, line + 54),
    ) {
        return false;
    }
    measured(
        spline_query::spline_length(numbers, table),
        number,
        pattern(text, line + 63),
    )
}

// Whether the point at `at` is the position, the one past it the tangent, and `raw` the parameter, on segment 0.
fn flown(found: Result<Flight, Refusal>, number: u32, text: &[u8], at: usize, raw: u32) -> bool
    requires { at + 36 ≤ length text.now }
{
    match found {
        Ok(flight) => {
            number == 0
                && flight.segment == Some(0)
                && same_point(flight.position, pattern(text, at), pattern(text, at + 9))
                && same_point(
                    flight.tangent,
                    pattern(text, at + 18),
                    pattern(text, at + 27),
                )
                && has_bits(number_of(flight.raw), raw)
        }
        Err(refusal) => refusal.number() == number,
    }
}

fn measured(found: Result<f32, Refusal>, number: u32, length: u32) -> bool {
    match found {
        Ok(own) => number == 0 && has_bits(own, length),
        Err(refusal) => refusal.number() == number,
    }
}
