// One group of each kind, read into a command.
ghost use Rattle.std.specs.Prelude.{◌≡◌};
ghost use Rattle.svg_group.specs.Groups.{read_move_of, read_line_of, read_horizontal_of, read_vertical_of, read_cubic_of, read_smooth_cubic_of, read_quad_of, read_smooth_quad_of, read_arc_of, read_group_of};

use crate::letters::Kind;
use crate::numbers::{Coordinates, read_flags, read_number, read_pair};
use answers::Refusal;
use commands::PathCommand;
use decimal::Read;
use math::Point;

// The command and the place past its group.
#[derive(Clone, Copy)]
pub struct Group {
    pub command: PathCommand,
    pub next: usize,
}

// The readers of one pair or one number are two lines each that differ in what they make of it: a function over
// a closure that makes it would need more lines at each kind, and is no plainer.
#[tactic(auto, unfolding(crate::specs::Groups::read_move_of))]
fn read_move(text: &[u8], at: usize, relative: bool, current: Point) -> Result<Group, Refusal>
    ensures { result ≡ read_move_of text.now at relative current }
{
    match read_pair(text, at, relative, current) {
        Err(refusal) => Err(refusal),
        Ok(Coordinates { x, y, next }) => Ok(Group {
            command: PathCommand::MoveTo(Point { x, y }),
            next,
        }),
    }
}

#[tactic(auto, unfolding(crate::specs::Groups::read_line_of))]
fn read_line(text: &[u8], at: usize, relative: bool, current: Point) -> Result<Group, Refusal>
    ensures { result ≡ read_line_of text.now at relative current }
{
    match read_pair(text, at, relative, current) {
        Err(refusal) => Err(refusal),
        Ok(Coordinates { x, y, next }) => Ok(Group {
            command: PathCommand::LineTo(Point { x, y }),
            next,
        }),
    }
}

#[tactic(auto, unfolding(crate::specs::Groups::read_horizontal_of))]
fn read_horizontal(text: &[u8], at: usize, relative: bool, current: Point) -> Result<Group, Refusal>
    ensures { result ≡ read_horizontal_of text.now at relative current }
{
    match read_number(text, at) {
        Err(refusal) => Err(refusal),
        Ok(Read { value, end: next }) => {
            let x = if relative { current.x + value } else { value };
            let end = Point { x, y: current.y };
            Ok(Group {
                command: PathCommand::LineTo(end),
                next,
            })
        }
    }
}

#[tactic(auto, unfolding(crate::specs::Groups::read_vertical_of))]
fn read_vertical(text: &[u8], at: usize, relative: bool, current: Point) -> Result<Group, Refusal>
    ensures { result ≡ read_vertical_of text.now at relative current }
{
    match read_number(text, at) {
        Err(refusal) => Err(refusal),
        Ok(Read { value, end: next }) => {
            let y = if relative { current.y + value } else { value };
            let end = Point { x: current.x, y };
            Ok(Group {
                command: PathCommand::LineTo(end),
                next,
            })
        }
    }
}

#[tactic(auto, unfolding(crate::specs::Groups::read_cubic_of, crate::specs::Groups::read_smooth_cubic_of))]
fn read_cubic(text: &[u8], at: usize, relative: bool, current: Point) -> Result<Group, Refusal>
    ensures { result ≡ read_cubic_of text.now at relative current }
{
    match read_pair(text, at, relative, current) {
        Err(refusal) => Err(refusal),
        Ok(Coordinates { x, y, next }) => {
            let control1 = Point { x, y };
            read_smooth_cubic(text, next, relative, current, control1)
        }
    }
}

#[tactic(auto, unfolding(crate::specs::Groups::read_quad_of, crate::specs::Groups::read_smooth_quad_of))]
fn read_quad(text: &[u8], at: usize, relative: bool, current: Point) -> Result<Group, Refusal>
    ensures { result ≡ read_quad_of text.now at relative current }
{
    match read_pair(text, at, relative, current) {
        Err(refusal) => Err(refusal),
        Ok(Coordinates { x, y, next }) => {
            let control = Point { x, y };
            read_smooth_quad(text, next, relative, current, control)
        }
    }
}

// The second control and the end; the first control is given.
#[tactic(auto, unfolding(crate::specs::Groups::read_smooth_cubic_of))]
#[inline(always)]
fn read_smooth_cubic(
    text: &[u8],
    at: usize,
    relative: bool,
    current: Point,
    first: Point,
) -> Result<Group, Refusal>
    ensures { result ≡ read_smooth_cubic_of text.now at relative current first }
{
    match read_pair(text, at, relative, current) {
        Err(refusal) => Err(refusal),
        Ok(Coordinates { x, y, next }) => {
            let control2 = Point { x, y };
            match read_pair(text, next, relative, current) {
                Err(refusal) => Err(refusal),
                Ok(Coordinates { x, y, next }) => Ok(Group {
                    command: PathCommand::CubicTo {
                        control1: first,
                        control2,
                        end: Point { x, y },
                    },
                    next,
                }),
            }
        }
    }
}

// The end alone.
#[tactic(auto, unfolding(crate::specs::Groups::read_smooth_quad_of))]
#[inline(always)]
fn read_smooth_quad(
    text: &[u8],
    at: usize,
    relative: bool,
    current: Point,
    first: Point,
) -> Result<Group, Refusal>
    ensures { result ≡ read_smooth_quad_of text.now at relative current first }
{
    match read_pair(text, at, relative, current) {
        Err(refusal) => Err(refusal),
        Ok(Coordinates { x, y, next }) => Ok(Group {
            command: PathCommand::QuadTo {
                control: first,
                end: Point { x, y },
            },
            next,
        }),
    }
}

// The radii are no point of the plane, and are never added to one.
#[tactic(auto, unfolding(crate::specs::Groups::read_arc_of))]
fn read_arc(text: &[u8], at: usize, relative: bool, current: Point) -> Result<Group, Refusal>
    ensures { result ≡ read_arc_of text.now at relative current }
{
    let radii = read_pair(text, at, false, current)?;
    let rotation = read_number(text, radii.next)?;
    let flags = read_flags(text, rotation.end)?;
    let end = read_pair(text, flags.next, relative, current)?;
    Ok(Group {
        command: PathCommand::ArcTo {
            radii: radii.point(),
            rotation: rotation.value,
            large_arc: flags.large,
            sweep: flags.sweep,
            end: end.point(),
        },
        next: end.next,
    })
}

// One group of a kind; `relative` says that its points are added to the current one, and `first` is
// the first control of a smooth curve.
#[tactic(auto, unfolding(crate::specs::Groups::read_group_of))]
pub fn read_group(
    text: &[u8],
    at: usize,
    kind: Kind,
    relative: bool,
    current: Point,
    first: Point,
) -> Result<Group, Refusal>
    ensures { result ≡ read_group_of text.now at kind relative current first }
{
    match kind {
        Kind::Move => read_move(text, at, relative, current),
        Kind::Line => read_line(text, at, relative, current),
        Kind::Horizontal => read_horizontal(text, at, relative, current),
        Kind::Vertical => read_vertical(text, at, relative, current),
        Kind::Cubic => read_cubic(text, at, relative, current),
        Kind::SmoothCubic => read_smooth_cubic(text, at, relative, current, first),
        Kind::Quad => read_quad(text, at, relative, current),
        Kind::SmoothQuad => read_smooth_quad(text, at, relative, current, first),
        Kind::Arc => read_arc(text, at, relative, current),
    }
}
