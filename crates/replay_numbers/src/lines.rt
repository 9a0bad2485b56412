// A record of helpers and turns, which is a line: the function's letter, then five operands and two answers as patterns of eight
// hexadecimal digits, a space before each. Those that a function does not use are zeros.
use math::Point;
use replay_records::{float, pattern};
use std::io;
use std::io::Read;

const RECORD: usize = 65;

#[derive(Clone, Copy)]
pub struct Line {
    // 0, which no function has, where the record is cut short.
    pub letter: u8,
    // The first four operands as points, and the fifth.
    pub p: Point,
    pub q: Point,
    pub t: f32,
    pub x: u32,
    pub y: u32,
}

fn read(text: &[u8]) -> Line {
    let letter = if text.len() < RECORD { 0 } else { text[0] };
    Line {
        letter,
        p: Point {
            x: float(pattern(text, 2)),
            y: float(pattern(text, 11)),
        },
        q: Point {
            x: float(pattern(text, 20)),
            y: float(pattern(text, 29)),
        },
        t: float(pattern(text, 38)),
        x: pattern(text, 47),
        y: pattern(text, 56),
    }
}

// The next record.
pub fn next(reader: &mut impl Read) -> io::Result<Line> {
    let mut record = [0u8; RECORD];
    let n = input::read_full(reader, &mut record)?;
    Ok(read(&record[..n]))
}
