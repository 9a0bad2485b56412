// The decoded command.
ghost use Rattle.std.specs.Prelude.{◌≡◌, length};
ghost use Rattle.commands.specs.Stored.{letter_of, arguments_of};

use math::Point;

// One of six cases with their numbers, in path units; the rotation is in degrees.
#[derive(Clone, Copy)]
pub enum PathCommand {
    MoveTo(Point),
    LineTo(Point),
    QuadTo {
        control: Point,
        end: Point,
    },
    CubicTo {
        control1: Point,
        control2: Point,
        end: Point,
    },
    ArcTo {
        radii: Point,
        rotation: f32,
        large_arc: bool,
        sweep: bool,
        end: Point,
    },
    ClosePath,
}

// The letter under which a command is stored.
pub fn letter(command: PathCommand) -> u8
    ensures { result ≡ letter_of command }
{
    match command {
        PathCommand::MoveTo(_) => b'M',
        PathCommand::LineTo(_) => b'L',
        PathCommand::QuadTo { control: _, end: _ } => b'Q',
        PathCommand::CubicTo {
            control1: _,
            control2: _,
            end: _,
        } => b'C',
        PathCommand::ArcTo {
            radii: _,
            rotation: _,
            large_arc: _,
            sweep: _,
            end: _,
        } => b'A',
        PathCommand::ClosePath => b'Z',
    }
}

// How many numbers a command stores.
pub fn width(command: PathCommand) -> usize
    ensures { result ≡ length (arguments_of command) }
{
    match command {
        PathCommand::MoveTo(_) => 2,
        PathCommand::LineTo(_) => 2,
        PathCommand::QuadTo { control: _, end: _ } => 4,
        PathCommand::CubicTo {
            control1: _,
            control2: _,
            end: _,
        } => 6,
        PathCommand::ArcTo {
            radii: _,
            rotation: _,
            large_arc: _,
            sweep: _,
            end: _,
        } => 7,
        PathCommand::ClosePath => 0,
    }
}
