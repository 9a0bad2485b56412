// The root and the helpers of math.rs: the Rust's answers.
use crate::lines::{Line, next};
use replay_records::{Count, has_bits, same_point, seen};
use std::io;
use std::io::Read;

pub fn replay(reader: &mut impl Read, count: Count) -> io::Result<Count> {
    let line = next(reader)?;
    Ok(seen(count, agrees(line)))
}

// Whether a record holds what the proved crates answer.
fn agrees(line: Line) -> bool {
    let letter = line.letter;
    let p = line.p;
    let q = line.q;
    let x = line.x;
    let y = line.y;
    match letter {
        b'r' => has_bits(root::sqrt(p.x), x),
        b't' => has_bits(floats::tidy(p.x), x),
        b'm' => has_bits(floats::min(p.x, p.y), x),
        b'M' => has_bits(floats::max(p.x, p.y), x),
        b'c' => has_bits(floats::clamp(p.x, p.y, q.x), x),
        b'C' => has_bits(math::clamp01(p.x), x),
        b'l' => has_bits(math::lerp(p.x, p.y, q.x), x),
        b'd' => has_bits(math::deg_to_rad(p.x), x),
        b'D' => has_bits(math::rad_to_deg(p.x), x),
        b'a' => same_point(math::add(p, q), x, y),
        b's' => same_point(math::sub(p, q), x, y),
        b'k' => same_point(math::scale(p, q.x), x, y),
        b'p' => has_bits(math::dot(p, q), x),
        b'n' => has_bits(math::length(p), x),
        b'w' => has_bits(math::distance(p, q), x),
        b'u' => same_point(math::normalize(p), x, y),
        b'L' => same_point(math::lerp_point(p, q, line.t), x, y),
        _ => false,
    }
}
