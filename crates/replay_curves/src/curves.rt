// Quads and cubics: the Rust's answers.
ghost use Rattle.std.specs.Prelude.{◌+◌, ◌≤◌, length};

use answers::Refusal;
use math::Point;
use replay_records::{
    Count, float, has_bits, number_of, pattern, point, same_answers, same_numbers, seen,
};
use std::io;
use std::io::Read;
use table::{Progress, Table};

// A block is a curve and five progresses. Its first line has a letter (q or c), the refusal's number or
// 0, the coordinates of four points (a quad has no second control), 32 entries and the total; each
// further line has a progress, and the position, the tangent and the heading there. All numbers are
// patterns of eight hexadecimal digits without blanks.
const BLOCK: usize = 583;

const FIRST: usize = 338;

const LINE: usize = 49;

const LINES: usize = 5;

pub fn replay(reader: &mut impl Read, count: Count) -> io::Result<Count> {
    let mut block = [0u8; BLOCK];
    let n = input::read_full(reader, &mut block)?;
    Ok(replay_block(count, &block[..n]))
}

// One answer for each line.
fn replay_block(count: Count, text: &[u8]) -> Count {
    let mut counted = count;
    for i in 0..LINES {
        counted = seen(counted, agrees(text, FIRST + i * LINE));
    }
    counted
}

// Whether the line at `line` of a whole block holds what its curve answers.
fn agrees(text: &[u8], line: usize) -> bool
    requires { line + 49 ≤ 583 }
{
    if text.len() < BLOCK {
        return false;
    }
    match text[0] {
        b'q' => quad_agrees(text, line),
        b'c' => cubic_agrees(text, line),
        _ => false,
    }
}

fn quad_agrees(text: &[u8], line: usize) -> bool
    requires in_bounds { 583 ≤ length text.now }
    requires line_in_bounds { line + 49 ≤ length text.now }
{
    let start = point(text, 9);
    let control = point(text, 25);
    let end = point(text, 57);
    let number = pattern(text, 1);
    let progress = Progress {
        value: float(pattern(text, line)),
    };
    match bezier::quad(start, control, end) {
        Ok(curve) => {
            let position = bezier::quad_position(curve, progress);
            let tangent = bezier::quad_tangent(curve, progress);
            let turned = bezier::quad_rotation_deg(curve, progress);
            number == 0 && same_curve(curve.table, position, tangent, turned, text, line)
        }
        Err(refusal) => number_of(Err(refusal)) == number,
    }
}

fn cubic_agrees(text: &[u8], line: usize) -> bool
    requires in_bounds { 583 ≤ length text.now }
    requires line_in_bounds { line + 49 ≤ length text.now }
{
    let start = point(text, 9);
    let control1 = point(text, 25);
    let control2 = point(text, 41);
    let end = point(text, 57);
    let number = pattern(text, 1);
    let progress = Progress {
        value: float(pattern(text, line)),
    };
    match bezier::cubic(start, control1, control2, end) {
        Ok(curve) => {
            let position = bezier::cubic_position(curve, progress);
            let tangent = bezier::cubic_tangent(curve, progress);
            let turned = bezier::cubic_rotation_deg(curve, progress);
            number == 0 && same_curve(curve.table, position, tangent, turned, text, line)
        }
        Err(refusal) => number_of(Err(refusal)) == number,
    }
}

// Whether the block holds this table, and the line at `line` these answers.
fn same_curve(
    table: Table,
    position: Result<Point, Refusal>,
    tangent: Result<Point, Refusal>,
    turned: Result<f32, Refusal>,
    text: &[u8],
    line: usize,
) -> bool
    requires in_bounds { 583 ≤ length text.now }
    requires line_in_bounds { line + 49 ≤ length text.now }
{
    same_table(table, text, 73) && same_answers(position, tangent, turned, text, line + 8)
}

// Whether a table's entries and its total have the 33 patterns at this place.
fn same_table(table: Table, text: &[u8], at: usize) -> bool
    requires { at + 264 ≤ length text.now }
{
    let entries = table.entries;
    same_numbers(&entries, text, at, 8) && has_bits(table.total, pattern(text, at + 256))
}
