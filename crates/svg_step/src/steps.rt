// The reader's state and its step: from a place in the text to the next command.
ghost use Rattle.std.specs.Prelude.{◌<◌, ◌≡◌, length};
ghost use Rattle.svg_group.specs.Letters.{meaning_of};
ghost use Rattle.svg_step.specs.Steps.{fresh_of, is_relative_of, needs_point_of, repeated_of, mirrored_of, takes_up_of, first_control_of, drawn, after_of};
ghost use Rattle.svg_step.specs.Steps.{due_group_of, due_letter_of, due_again_of, due_at_of, next_due_of, offset_at, read_step_of, pass_step_of};

use answers::Refusal;
use commands::PathCommand;
use math::Point;
use svg_group::{Group, Kind, Letter};

// The reader's state between two commands.
#[derive(Clone, Copy)]
pub struct Reader {
    // The place in the text up to which it is read.
    pub at: usize,
    // The current point, which there is where `placed` is true, and the start of its subpath.
    pub current: Point,
    pub start: Point,
    pub placed: bool,
    // The last command's last control, or its end where it has none.
    pub control: Point,
    // The remembered command's letter, or 0 for none.
    pub letter: u8,
    // Where the letter stands that made the last command, or 0 before the first.
    pub offset: usize,
}

// A command, and the state past it.
#[derive(Clone, Copy)]
pub struct Stepped {
    pub command: PathCommand,
    pub next: Reader,
}

// The state before the first command.
pub fn fresh() -> Reader
    ensures { result ≡ fresh_of }
{
    Reader {
        at: 0,
        current: Point { x: 0.0, y: 0.0 },
        start: Point { x: 0.0, y: 0.0 },
        placed: false,
        control: Point { x: 0.0, y: 0.0 },
        letter: 0,
        offset: 0,
    }
}

// Whether a letter adds to the current point: in lower case, where there is one.
#[tactic(auto, unfolding(crate::specs::Steps::is_relative_of))]
fn is_relative(letter: u8, placed: bool) -> bool
    ensures { result ≡ is_relative_of letter placed }
{
    (97 <= letter) & placed
}

#[tactic(auto, unfolding(crate::specs::Steps::needs_point_of))]
fn needs_point(kind: Kind) -> bool
    ensures { result ≡ needs_point_of kind }
{
    !matches!(kind, Kind::Move)
}

// What a further group of a kind is.
#[tactic(auto, unfolding(crate::specs::Steps::repeated_of))]
fn repeated(kind: Kind) -> Kind
    ensures { result ≡ repeated_of kind }
{
    match kind {
        Kind::Move => Kind::Line,
        other => other,
    }
}

// A control on the other side of the current point. The difference is rounded, then the sum.
#[tactic(auto, unfolding(crate::specs::Steps::mirrored_of))]
fn mirrored(current: Point, control: Point) -> Point
    ensures { result ≡ mirrored_of current control }
{
    math::add(current, math::sub(current, control))
}

// Whether a curve of a kind takes up the control of the last command, by that command's letter.
#[tactic(auto, unfolding(crate::specs::Steps::takes_up_of, svg_group::specs::Letters::meaning_of, scan::specs::Bytes::among))]
fn takes_up(kind: Kind, last: u8) -> bool
    ensures { result ≡ takes_up_of kind (meaning_of last) }
{
    match kind {
        Kind::SmoothCubic => { (last == b'C') | (last == b'c') | (last == b'S') | (last == b's') }
        Kind::SmoothQuad => { (last == b'Q') | (last == b'q') | (last == b'T') | (last == b't') }
        _ => false,
    }
}

// The first control of a smooth curve, by the last command's letter and control. What is not
// mirrored is the current point's own bits.
#[tactic(auto, unfolding(crate::specs::Steps::first_control_of))]
fn first_control(kind: Kind, last: u8, current: Point, control: Point) -> Point
    ensures { result ≡ first_control_of kind last current control }
{
    if takes_up(kind, last) {
        return mirrored(current, control);
    }
    current
}

// The state past a command that ends at a point.
fn standing(
    end: Point,
    start: Point,
    control: Point,
    next: usize,
    letter: u8,
    offset: usize,
) -> Reader
    ensures { result ≡ drawn end start control next letter offset }
{
    Reader {
        at: next,
        current: end,
        start,
        placed: true,
        control,
        letter,
        offset,
    }
}

// The state after a command, which is read up to `next`, with the letter that was remembered for it and
// the offset of the letter that made it.
#[tactic(auto, unfolding(crate::specs::Steps::after_of))]
fn after(command: PathCommand, next: usize, letter: u8, offset: usize, start: Point) -> Reader
    ensures { result ≡ after_of command next letter offset start }
{
    match command {
        PathCommand::MoveTo(end) => standing(end, end, end, next, letter, offset),
        PathCommand::LineTo(end) => standing(end, start, end, next, letter, offset),
        PathCommand::QuadTo { control, end } => standing(end, start, control, next, letter, offset),
        PathCommand::CubicTo {
            control1: _,
            control2,
            end,
        } => standing(end, start, control2, next, letter, offset),
        PathCommand::ArcTo {
            radii: _,
            rotation: _,
            large_arc: _,
            sweep: _,
            end,
        } => standing(end, start, end, next, letter, offset),
        PathCommand::ClosePath => standing(start, start, start, next, 0, offset),
    }
}

// What is due at a place of the text.
#[derive(Clone, Copy, Debug, PartialEq, Eq)]
pub enum Due {
    // The text is at its end.
    Done,
    // A Z, and the place past it.
    Close(usize),
    // A group of a letter's kind, whose first number starts at a place.
    Group {
        kind: Kind,
        letter: u8,
        first: usize,
    },
}

// A group of a kind from `at` on, where a number must start.
#[tactic(auto, unfolding(crate::specs::Steps::due_group_of))]
fn due_group(text: &[u8], at: usize, kind: Kind, letter: u8) -> Result<Due, Refusal>
    ensures { result ≡ due_group_of text.now at kind letter }
{
    let first = scan::past_separators(text, at);
    if scan::starts_number(scan::byte_at(text, first)) {
        return Ok(Due::Group {
            kind,
            letter,
            first,
        });
    }
    Err(Refusal::ExpectedNumber(at))
}

// The command whose letter stands at `at`; `placed` says that there is a current point.
#[tactic(auto, unfolding(crate::specs::Steps::due_letter_of))]
fn due_letter(text: &[u8], at: usize, letter: u8, placed: bool) -> Result<Due, Refusal>
    requires { at < length text.now }
    ensures { result ≡ due_letter_of text.now at letter placed }
{
    match svg_group::meaning(letter) {
        Letter::Unknown => Err(Refusal::UnsupportedCommand(letter, at)),
        Letter::Closes => Ok(Due::Close(at + 1)),
        Letter::Draws(kind) => {
            if needs_point(kind) && !placed {
                return Err(Refusal::MissingMoveTo(at + 1));
            }
            due_group(text, at + 1, kind, letter)
        }
    }
}

// The remembered command once more, at a byte that is no letter.
#[tactic(auto, unfolding(crate::specs::Steps::due_again_of))]
fn due_again(text: &[u8], at: usize, letter: u8) -> Result<Due, Refusal>
    ensures { result ≡ due_again_of text.now at letter }
{
    match svg_group::meaning(letter) {
        Letter::Unknown | Letter::Closes => Err(Refusal::MissingMoveTo(at)),
        Letter::Draws(kind) => due_group(text, at, repeated(kind), letter),
    }
}

// What is due at a place past separators, with the remembered letter.
#[tactic(auto, unfolding(crate::specs::Steps::due_at_of))]
fn due_at(text: &[u8], at: usize, letter: u8, placed: bool) -> Result<Due, Refusal>
    ensures { result ≡ due_at_of text.now at letter placed }
{
    if text.len() <= at {
        return Ok(Due::Done);
    }
    let byte = text[at];
    if svg_group::is_letter(byte) {
        return due_letter(text, at, byte, placed);
    }
    due_again(text, at, letter)
}

// What is due from a place on, with the remembered letter.
#[tactic(auto, unfolding(crate::specs::Steps::next_due_of))]
pub fn next_due(text: &[u8], from: usize, letter: u8, placed: bool) -> Result<Due, Refusal>
    ensures { result ≡ next_due_of text.now from letter placed }
{
    due_at(text, scan::past_separators(text, from), letter, placed)
}

// The offset of the letter that makes what is due at a place past separators: the place itself, or
// that of the last letter where no letter stands there.
#[tactic(auto, unfolding(crate::specs::Steps::offset_at))]
fn letter_offset(text: &[u8], at: usize, last: usize) -> usize
    ensures { result ≡ offset_at text.now at last }
{
    if svg_group::is_letter(scan::byte_at(text, at)) {
        return at;
    }
    last
}

// The next command of a text, if it has a further one.
#[tactic(auto, unfolding(crate::specs::Steps::read_step_of, crate::specs::Steps::next_due_of))]
pub fn read_step(text: &[u8], reader: Reader) -> Result<Option<Stepped>, Refusal>
    ensures { result ≡ read_step_of text.now reader }
{
    let start = reader.start;
    let at = scan::past_separators(text, reader.at);
    let offset = letter_offset(text, at, reader.offset);
    match due_at(text, at, reader.letter, reader.placed) {
        Err(refusal) => Err(refusal),
        Ok(Due::Done) => Ok(None),
        Ok(Due::Close(next)) => Ok(Some(Stepped {
            command: PathCommand::ClosePath,
            next: after(PathCommand::ClosePath, next, reader.letter, offset, start),
        })),
        Ok(
            Due::Group {
                kind,
                letter,
                first,
            },
        ) => {
            let current = reader.current;
            let relative = is_relative(letter, reader.placed);
            let control = first_control(kind, reader.letter, current, reader.control);
            // no `?`: it copies the command once more, in other widths than it is written
            match svg_group::read_group(text, first, kind, relative, current, control) {
                Err(refusal) => Err(refusal),
                Ok(Group { command, next }) => Ok(Some(Stepped {
                    command,
                    next: after(command, next, letter, offset, start),
                })),
            }
        }
    }
}

// A command that is passed without its values: how many numbers it stores, the place past it and the
// letter that is remembered.
#[derive(Clone, Copy, Debug, PartialEq, Eq)]
pub struct Pass {
    pub width: usize,
    pub next: usize,
    pub letter: u8,
}

// The next command of a text, if it has a further one, passed without its values.
#[tactic(auto, unfolding(crate::specs::Steps::pass_step_of))]
pub fn pass_step(
    text: &[u8],
    from: usize,
    letter: u8,
    placed: bool,
) -> Result<Option<Pass>, Refusal>
    ensures { result ≡ pass_step_of text.now from letter placed }
{
    match next_due(text, from, letter, placed)? {
        Due::Done => Ok(None),
        Due::Close(next) => Ok(Some(Pass {
            width: 0,
            next,
            letter: 0,
        })),
        Due::Group {
            kind,
            letter,
            first,
        } => Ok(Some(Pass {
            width: svg_group::width(kind),
            next: svg_group::pass_group(text, first, kind)?,
            letter,
        })),
    }
}
