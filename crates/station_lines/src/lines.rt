// One function for each kind of line. Each returns the place past the line.
ghost use Rattle.std.specs.Prelude.{◌+◌, ◌≤◌, ◌<◌, length};
ghost use Rattle.station_lines.specs.Lines.{point_fields, argument_fields, command_line, kind_name, segment_line, header_line};
ghost use Rattle.station_lines.specs.Lines.{amount_line, segment_field, FewSegments, station_line, value_fields, carried_fields, refusal_line};
ghost use Rattle.answers.specs.Answers.{listed};
ghost use Rattle.commands.specs.Stored.{flag_of};
ghost use Rattle.station_lines.specs.Numbers.{bits_field};
ghost use Rattle.station_lines.specs.Put.{PutWithin};

use crate::numbers::{put_bits, put_byte, put_number, put_offset, put_small, put_whole, put_word};
use answers::{Refusal, Values};
use commands::PathCommand;
use math::Point;

fn put_point(out: &mut [u8], at: usize, point: Point) -> usize
    requires { at + 18 ≤ 69632 }
    ensures { PutWithin 18 (point_fields point) at out.old out.new result }
{
    let past_x = put_bits(out, at, point.x);
    put_bits(out, past_x, point.y)
}

fn put_flag(out: &mut [u8], at: usize, flag: bool) -> usize
    requires { at + 9 ≤ 69632 }
    ensures { PutWithin 9 (bits_field (flag_of flag)) at out.old out.new result }
{
    if flag {
        return put_bits(out, at, 1.0);
    }
    put_bits(out, at, 0.0)
}

fn put_quad(out: &mut [u8], at: usize, control: Point, end: Point) -> usize
    requires { at + 36 ≤ 69632 }
    ensures { PutWithin 36 (argument_fields (PathCommand.QuadTo control end)) at out.old out.new result }
{
    let past_control = put_point(out, at, control);
    put_point(out, past_control, end)
}

fn put_arc(
    out: &mut [u8],
    at: usize,
    radii: Point,
    rotation: f32,
    large_arc: bool,
    sweep: bool,
    end: Point,
) -> usize
    requires { at + 63 ≤ 69632 }
    ensures { PutWithin 63 (argument_fields (PathCommand.ArcTo radii rotation large_arc sweep end)) at out.old out.new result }
{
    let past_radii = put_point(out, at, radii);
    let past_rotation = put_bits(out, past_radii, rotation);
    let past_large = put_flag(out, past_rotation, large_arc);
    let past_sweep = put_flag(out, past_large, sweep);
    put_point(out, past_sweep, end)
}

// The numbers of a command.
fn put_arguments(out: &mut [u8], at: usize, command: PathCommand) -> usize
    requires { at + 63 ≤ 69632 }
    ensures { PutWithin 63 (argument_fields command) at out.old out.new result }
{
    match command {
        PathCommand::MoveTo(end) => {
            return put_point(out, at, end);
        }
        PathCommand::LineTo(end) => {
            return put_point(out, at, end);
        }
        PathCommand::QuadTo { control, end } => {
            return put_quad(out, at, control, end);
        }
        PathCommand::CubicTo {
            control1,
            control2,
            end,
        } => {
            let past_controls = put_quad(out, at, control1, control2);
            return put_point(out, past_controls, end);
        }
        PathCommand::ArcTo {
            radii,
            rotation,
            large_arc,
            sweep,
            end,
        } => {
            return put_arc(out, at, radii, rotation, large_arc, sweep, end);
        }
        PathCommand::ClosePath => {
            return at;
        }
    }
}

// A command: its letter, its numbers as bits and the offset of the letter that made it.
pub fn put_command(out: &mut [u8], at: usize, command: PathCommand, offset: usize) -> usize
    requires { (offset < 10000) × (at + 70 ≤ 69632) }
    ensures { PutWithin 70 (command_line command offset) at out.old out.new result }
{
    let past_letter = put_byte(out, at, commands::letter(command));
    let past_numbers = put_arguments(out, past_letter, command);
    let past_offset = put_offset(out, past_numbers, offset);
    put_byte(out, past_offset, b'\n')
}

// The name of a segment's kind.
fn put_kind(out: &mut [u8], at: usize, kind: u8) -> usize
    requires { at + 8 ≤ 69632 }
    ensures { PutWithin 8 (kind_name kind) at out.old out.new result }
{
    if kind == 0 {
        return put_word(out, at, b"line");
    }
    if kind == 1 {
        return put_word(out, at, b"quad");
    }
    if kind == 2 {
        return put_word(out, at, b"cubic");
    }
    if kind == 3 {
        return put_word(out, at, b"arc");
    }
    put_word(out, at, b"fallback")
}

// A segment: the name of its kind, its running length and the number of its command.
pub fn put_segment(out: &mut [u8], at: usize, kind: u8, running: f32, command: usize) -> usize
    requires { (command < 1000) × (at + 22 ≤ 69632) }
    ensures { PutWithin 22 (segment_line kind running command) at out.old out.new result }
{
    let past_kind = put_kind(out, at, kind);
    let past_length = put_bits(out, past_kind, running);
    let past_space = put_byte(out, past_length, b' ');
    let past_command = put_small(out, past_space, command);
    put_byte(out, past_command, b'\n')
}

// A section's word and its count.
pub fn put_header(out: &mut [u8], at: usize, word: &[u8], count: usize) -> usize
    requires { at + (length word.now + 22) ≤ 69632 }
    ensures { PutWithin (length word.now + 22) (header_line word.now count) at out.old out.new result }
{
    let past_word = put_word(out, at, word);
    let past_count = put_number(out, past_word, count);
    put_byte(out, past_count, b'\n')
}

// A number alone.
pub fn put_amount(out: &mut [u8], at: usize, value: usize) -> usize
    requires { at + 21 ≤ 69632 }
    ensures { PutWithin 21 (amount_line value) at out.old out.new result }
{
    let past_value = put_whole(out, at, value);
    put_byte(out, past_value, b'\n')
}

// The segment on which a station lies.
fn put_found(out: &mut [u8], at: usize, found: Option<usize>) -> usize
    requires { FewSegments found × (at + 4 ≤ 69632) }
    ensures { PutWithin 4 (segment_field found) at out.old out.new result }
{
    let past_space = put_byte(out, at, b' ');
    match found {
        Some(number) => put_small(out, past_space, number),
        None => put_byte(out, past_space, b'-'),
    }
}

// A station: its number, its segment, its position and its tangent.
pub fn put_station(
    out: &mut [u8],
    at: usize,
    number: usize,
    found: Option<usize>,
    position: Point,
    tangent: Point,
) -> usize
    requires { (number < 1000) × FewSegments found × (at + 44 ≤ 69632) }
    ensures { PutWithin 44 (station_line number found position tangent) at out.old out.new result }
{
    let past_number = put_small(out, at, number);
    let past_segment = put_found(out, past_number, found);
    let past_position = put_point(out, past_segment, position);
    let past_tangent = put_point(out, past_position, tangent);
    put_byte(out, past_tangent, b'\n')
}

fn put_values(out: &mut [u8], at: usize, values: Values) -> usize
    requires { at + 105 ≤ 69632 }
    ensures { PutWithin 105 (value_fields (listed values)) at out.old out.new result }
{
    match values {
        Values::Nothing => {
            return at;
        }
        Values::One(a) => {
            return put_number(out, at, a);
        }
        Values::Two(a, b) => {
            let past_a = put_number(out, at, a);
            return put_number(out, past_a, b);
        }
        Values::Three(a, b, c) => {
            let past_a = put_number(out, at, a);
            let past_b = put_number(out, past_a, b);
            return put_number(out, past_b, c);
        }
        Values::Four(a, b, c, d) => {
            let past_a = put_number(out, at, a);
            let past_b = put_number(out, past_a, b);
            let past_c = put_number(out, past_b, c);
            return put_number(out, past_c, d);
        }
        Values::Five(a, b, c, d, e) => {
            let past_a = put_number(out, at, a);
            let past_b = put_number(out, past_a, b);
            let past_c = put_number(out, past_b, c);
            let past_d = put_number(out, past_c, d);
            return put_number(out, past_d, e);
        }
    }
}

// What a refusal carries: a letter as itself, numbers to the base 10.
fn put_carried(out: &mut [u8], at: usize, refusal: Refusal) -> usize
    requires { at + 105 ≤ 69632 }
    ensures { PutWithin 105 (carried_fields refusal) at out.old out.new result }
{
    if let Refusal::UnsupportedCommand(letter, offset) = refusal {
        let past_space = put_byte(out, at, b' ');
        let past_letter = put_byte(out, past_space, letter);
        return put_number(out, past_letter, offset);
    }
    put_values(out, at, refusal.carried())
}

// A refusal: its number and what it carries.
pub fn put_refusal(out: &mut [u8], at: usize, refusal: Refusal) -> usize
    requires { at + 134 ≤ 69632 }
    ensures { PutWithin 134 (refusal_line refusal) at out.old out.new result }
{
    let past_word = put_word(out, at, b"refused");
    let past_number = put_number(out, past_word, refusal.number() as usize);
    let past_carried = put_carried(out, past_number, refusal);
    put_byte(out, past_carried, b'\n')
}
