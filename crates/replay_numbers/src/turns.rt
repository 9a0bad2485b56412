// Sines, cosines and angles. The heading and the angle between are the Rust's answers, the rest are those of the compiled
// library.
use crate::lines::{Line, next};
use replay_records::{Count, has_bits, seen};
use std::io;
use std::io::Read;
use trig::SinCos;

pub fn replay(reader: &mut impl Read, count: Count) -> io::Result<Count> {
    let line = next(reader)?;
    Ok(seen(count, agrees(line)))
}

// Whether a record holds what the proved crates answer.
fn agrees(line: Line) -> bool {
    let letter = line.letter;
    let p = line.p;
    let x = line.x;
    match letter {
        b's' => has_bits(trig::sin(p.x), x),
        b'c' => has_bits(trig::cos(p.x), x),
        b'p' => both(trig::sin_cos(p.x), x, line.y),
        b'a' => has_bits(atan2::atan2(p.x, p.y), x),
        b'h' => has_bits(angles::rotation_deg(p), x),
        b'b' => has_bits(angles::angle_between(p, line.q), x),
        _ => false,
    }
}

// The cosine stands before the sine, as x before y.
fn both(found: SinCos, x: u32, y: u32) -> bool {
    has_bits(found.cos, x) && has_bits(found.sin, y)
}
