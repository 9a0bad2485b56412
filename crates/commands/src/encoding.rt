// One command in the two buffers of a list: stored, and read back.
ghost use Rattle.std.specs.Prelude.{◌≡◌, ◌+◌, ◌≤◌, ◌<◌, length, drop, [], ◌∷◌};
ghost use Rattle.std.proofs.lemmas.List.Edits.{sets};
ghost use Rattle.commands.specs.Stored.{arguments_of, flag_of, Store};
ghost use Rattle.commands.specs.Listed.{point_at, is_flag, is_set, arc_of, command_of};

use crate::command::{PathCommand, letter};
use math::Point;

fn flag_number(flag: bool) -> f32
    ensures { result ≡ flag_of flag }
{
    if flag { 1.0 } else { 0.0 }
}

// Puts two numbers at `at` and `at + 1`, and touches no other.
pub fn put_two(numbers: &mut [f32], at: usize, x: f32, y: f32)
    requires { at + 2 ≤ length numbers.old }
    ensures { numbers.new ≡ sets numbers.old at (x ∷ y ∷ []) }
{
    numbers[at] = floats::tidy(x);
    numbers[at + 1] = floats::tidy(y);
}

fn put_quad(numbers: &mut [f32], at: usize, control: Point, end: Point)
    requires { at + 4 ≤ length numbers.old }
    ensures { numbers.new ≡ sets numbers.old at (arguments_of (PathCommand.QuadTo control end)) }
{
    put_two(numbers, at, control.x, control.y);
    put_two(numbers, at + 2, end.x, end.y);
}

fn put_cubic(numbers: &mut [f32], at: usize, control1: Point, control2: Point, end: Point)
    requires { at + 6 ≤ length numbers.old }
    ensures { numbers.new ≡ sets numbers.old at (arguments_of (PathCommand.CubicTo control1 control2 end)) }
{
    put_two(numbers, at, control1.x, control1.y);
    put_two(numbers, at + 2, control2.x, control2.y);
    put_two(numbers, at + 4, end.x, end.y);
}

fn put_arc(
    numbers: &mut [f32],
    at: usize,
    radii: Point,
    rotation: f32,
    large: bool,
    sweep: bool,
    end: Point,
)
    requires { at + 7 ≤ length numbers.old }
    ensures { numbers.new ≡ sets numbers.old at (arguments_of (PathCommand.ArcTo radii rotation large sweep end)) }
{
    put_two(numbers, at, radii.x, radii.y);
    put_two(numbers, at + 2, rotation, flag_number(large));
    put_two(numbers, at + 4, flag_number(sweep), end.x);
    numbers[at + 6] = floats::tidy(end.y);
}

// Stores a command's numbers from `at` on.
fn store_arguments(numbers: &mut [f32], at: usize, command: PathCommand)
    requires { at + length (arguments_of command) ≤ length numbers.old }
    ensures { numbers.new ≡ sets numbers.old at (arguments_of command) }
{
    match command {
        PathCommand::MoveTo(end) => put_two(numbers, at, end.x, end.y),
        PathCommand::LineTo(end) => put_two(numbers, at, end.x, end.y),
        PathCommand::QuadTo { control, end } => put_quad(numbers, at, control, end),
        PathCommand::CubicTo {
            control1,
            control2,
            end,
        } => put_cubic(numbers, at, control1, control2, end),
        PathCommand::ArcTo {
            radii,
            rotation,
            large_arc,
            sweep,
            end,
        } => put_arc(numbers, at, radii, rotation, large_arc, sweep, end),
        PathCommand::ClosePath => {}
    }
}

// Stores a command: its letter at `letter_at`, its numbers from `at` on.
pub fn store(
    letters: &mut [u8],
    numbers: &mut [f32],
    letter_at: usize,
    at: usize,
    command: PathCommand,
)
    requires { (letter_at < length letters.old) × (at + length (arguments_of command) ≤ length numbers.old) }
    ensures { Store letter_at at command letters.old numbers.old letters.new numbers.new }
{
    letters[letter_at] = letter(command);
    store_arguments(numbers, at, command);
}

// Whether bits are those of +0 or 1.
fn is_flag(bits: u32) -> bool
    ensures { result ≡ is_flag bits }
{
    (bits == 0) | (bits == 0x3f80_0000)
}

// Whether bits are those of 1.
fn is_set(bits: u32) -> bool
    ensures { result ≡ is_set bits }
{
    bits == 0x3f80_0000
}

// The point of the two numbers from `at` on.
pub fn point_at(numbers: &[f32], at: usize) -> Point
    requires { at + 2 ≤ length numbers.now }
    ensures { result ≡ point_at numbers.now at }
{
    Point {
        x: numbers[at],
        y: numbers[at + 1],
    }
}

fn arc_at(numbers: &[f32], at: usize) -> Option<PathCommand>
    requires { at + 7 ≤ length numbers.now }
    ensures { result ≡ arc_of (drop at numbers.now) }
{
    let large = floats::bits(numbers[at + 3]);
    let sweep = floats::bits(numbers[at + 4]);
    if is_flag(large) && is_flag(sweep) {
        return Some(PathCommand::ArcTo {
            radii: point_at(numbers, at),
            rotation: numbers[at + 2],
            large_arc: is_set(large),
            sweep: is_set(sweep),
            end: point_at(numbers, at + 5),
        });
    }
    None
}

// The command of a letter, whose numbers stand from `at` on. There is none for an unknown letter, a missing number or another flag.
pub fn decode(letter: u8, numbers: &[f32], at: usize) -> Option<PathCommand>
    requires { at ≤ length numbers.now }
    ensures { result ≡ command_of letter (drop at numbers.now) }
{
    let left = numbers.len() - at;
    match letter {
        b'M' if 2 <= left => Some(PathCommand::MoveTo(point_at(numbers, at))),
        b'L' if 2 <= left => Some(PathCommand::LineTo(point_at(numbers, at))),
        b'Q' if 4 <= left => Some(PathCommand::QuadTo {
            control: point_at(numbers, at),
            end: point_at(numbers, at + 2),
        }),
        b'C' if 6 <= left => Some(PathCommand::CubicTo {
            control1: point_at(numbers, at),
            control2: point_at(numbers, at + 2),
            end: point_at(numbers, at + 4),
        }),
        b'A' if 7 <= left => arc_at(numbers, at),
        b'Z' => Some(PathCommand::ClosePath),
        _ => None,
    }
}
