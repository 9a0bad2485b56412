// Lines and arcs: the Rust's answers.
ghost use Rattle.std.specs.Prelude.{◌+◌, ◌≤◌, length};

use arc::{EllipticalArc, LineSegment};
use ellipse::Chord;
use replay_records::{
    Count, float, has_bits, number_of, pattern, point, same_answers, same_numbers, seen,
};
use std::io;
use std::io::Read;
use table::Progress;

// A block is a segment and six progresses. Its first line has a letter (a or l), the refusal's number or
// 0, start, radii, rotation and end, the flags and whether the arc fell back to a line, each 0 or 1,
// then the arc's 11 numbers (a line's length), 32 entries and the total; each further line has a
// progress, and the position, the tangent and the heading there. All numbers are patterns of eight
// hexadecimal digits without blanks.
const BLOCK: usize = 715;

const FIRST: usize = 421;

const LINE: usize = 49;

const LINES: usize = 6;

pub fn replay(reader: &mut impl Read, count: Count) -> io::Result<Count> {
    let mut block = [0u8; BLOCK];
    let n = input::read_full(reader, &mut block)?;
    Ok(replay_block(count, &block[..n]))
}

// One answer for each line.
fn replay_block(count: Count, text: &[u8]) -> Count {
    let mut counted = count;
    for i in 0..LINES {
        counted = seen(counted, agrees(text, FIRST + i * LINE));
    }
    counted
}

// Whether the line at `line` of a whole block holds what its segment answers.
fn agrees(text: &[u8], line: usize) -> bool
    requires { line + 49 ≤ 715 }
{
    if text.len() < BLOCK {
        return false;
    }
    match text[0] {
        b'a' => arc_agrees(text, line),
        b'l' => line_agrees(text, line),
        _ => false,
    }
}

fn arc_agrees(text: &[u8], line: usize) -> bool
    requires in_bounds { 715 ≤ length text.now }
    requires line_in_bounds { line + 49 ≤ length text.now }
{
    let number = pattern(text, 1);
    match arc::arc(chord(text)) {
        Ok(own) => number == 0 && same_shape(own, text) && arc_answers(own, text, line),
        Err(refusal) => number_of(Err(refusal)) == number,
    }
}

fn line_agrees(text: &[u8], line: usize) -> bool
    requires in_bounds { 715 ≤ length text.now }
    requires line_in_bounds { line + 49 ≤ length text.now }
{
    let number = pattern(text, 1);
    match arc::line(point(text, 9), point(text, 49)) {
        Ok(own) => {
            number == 0
                && has_bits(arc::line_length(own), pattern(text, 68))
                && line_answers(own, text, line)
        }
        Err(refusal) => number_of(Err(refusal)) == number,
    }
}

// What the block gives of an arc.
fn chord(text: &[u8]) -> Chord
    requires { 715 ≤ length text.now }
{
    Chord {
        start: point(text, 9),
        radii: point(text, 25),
        x_axis_rotation: float(pattern(text, 41)),
        large_arc: text[65] == b'1',
        sweep: text[66] == b'1',
        end: point(text, 49),
    }
}

// Whether the block holds an arc's numbers, and its table unless it fell back to a line.
fn same_shape(own: EllipticalArc, text: &[u8]) -> bool
    requires { 715 ≤ length text.now }
{
    let numbers = c_output::arc_numbers(own.shape);
    if own.line_fallback {
        return text[67] == b'1' && same_numbers(&numbers, text, 68, 8);
    }
    let table = c_output::table_numbers(own.table);
    text[67] == b'0' && same_numbers(&numbers, text, 68, 8) && same_numbers(&table, text, 156, 8)
}

// Whether the line at this place holds what a line segment answers there.
fn line_answers(own: LineSegment, text: &[u8], line: usize) -> bool
    requires { line + 49 ≤ length text.now }
{
    let progress = progress_at(text, line);
    let position = Ok(arc::line_position(own, progress));
    let tangent = Ok(arc::line_tangent(own));
    let turned = Ok(arc::line_rotation_deg(own));
    same_answers(position, tangent, turned, text, line + 8)
}

// Whether the line at this place holds what an arc answers there.
fn arc_answers(own: EllipticalArc, text: &[u8], line: usize) -> bool
    requires { line + 49 ≤ length text.now }
{
    let progress = progress_at(text, line);
    let position = arc::arc_position(own, progress);
    let tangent = arc::arc_tangent(own, progress);
    let turned = arc::arc_rotation_deg(own, progress);
    same_answers(position, tangent, turned, text, line + 8)
}

// The progress of the line at this place.
fn progress_at(text: &[u8], line: usize) -> Progress {
    Progress {
        value: float(pattern(text, line)),
    }
}
