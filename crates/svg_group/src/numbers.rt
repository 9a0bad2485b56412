// Numbers, flags and pairs where one is due. Each passes the separators before it.
ghost use Rattle.std.specs.Prelude.{◌≡◌, IfSome};
ghost use Rattle.svg_group.specs.Numbers.{read_number_of, read_flag_of, read_flags_of, moved_of, read_pair_of, point_of};

use answers::Refusal;
use decimal::Read;
use decimal::inner::quick;
use math::Point;

// A flag and the place past it.
#[derive(Clone, Copy, Debug, PartialEq, Eq)]
pub struct Flag {
    pub set: bool,
    pub next: usize,
}

// The two flags of an arc and the place past them.
#[derive(Clone, Copy, Debug, PartialEq, Eq)]
pub struct Flags {
    pub large: bool,
    pub sweep: bool,
    pub next: usize,
}

// A point by its coordinates, and the place past it: kept as one value the point is written in two
// parts and read back as one, which waits for both.
#[derive(Clone, Copy)]
pub struct Coordinates {
    pub x: f32,
    pub y: f32,
    pub next: usize,
}

impl Coordinates {
    pub fn point(self) -> Point
        ensures { result ≡ point_of self }
    {
        Point {
            x: self.x,
            y: self.y,
        }
    }
}

// A number past separators by the quick way, where that tells.
#[tactic(auto, unfolding(crate::specs::Numbers::read_number_of))]
fn quick_number(text: &[u8], at: usize) -> Option<Read>
    ensures { IfSome result (λ read. read_number_of text.now at ≡ Ok read) }
{
    let start = scan::past_separators(text, at);
    if text.len() <= start {
        return None;
    }
    let mut value = [0.0f32; 1];
    let end = quick(text, start, true, &mut value);
    if end == 0 {
        return None;
    }
    Some(Read {
        value: value[0],
        end,
    })
}

// Any number past separators.
#[tactic(auto, unfolding(crate::specs::Numbers::read_number_of))]
fn any_number(text: &[u8], at: usize) -> Result<Read, Refusal>
    ensures { result ≡ read_number_of text.now at }
{
    let start = scan::past_separators(text, at);
    let size = text.len();
    if size <= start {
        return Err(Refusal::UnexpectedEnd(size));
    }
    // taken apart and put together again: else it is copied as a whole, which is slower
    match decimal::number(text, start) {
        Ok(Read { value, end }) => Ok(Read { value, end }),
        Err(refusal) => Err(refusal),
    }
}

pub fn read_number(text: &[u8], at: usize) -> Result<Read, Refusal>
    ensures { result ≡ read_number_of text.now at }
{
    if let Some(Read { value, end }) = quick_number(text, at) {
        return Ok(Read { value, end });
    }
    any_number(text, at)
}

// No `get`: an Option of a reference is in a form that modules for 32-bit processors must not have (DECISIONS 222).
#[tactic(auto, unfolding(crate::specs::Numbers::read_flag_of, crate::specs::Numbers::flag_standing))]
fn read_flag(text: &[u8], at: usize) -> Result<Flag, Refusal>
    ensures { result ≡ read_flag_of text.now at }
{
    let start = scan::past_separators(text, at);
    if text.len() <= start {
        return Err(Refusal::UnexpectedEnd(text.len()));
    }
    match text[start] {
        b'0' => Ok(Flag {
            set: false,
            next: start + 1,
        }),
        b'1' => Ok(Flag {
            set: true,
            next: start + 1,
        }),
        _ => Err(Refusal::ExpectedFlag(start)),
    }
}

#[tactic(auto, unfolding(crate::specs::Numbers::read_flags_of))]
pub fn read_flags(text: &[u8], at: usize) -> Result<Flags, Refusal>
    ensures { result ≡ read_flags_of text.now at }
{
    let large = read_flag(text, at)?;
    let sweep = read_flag(text, large.next)?;
    Ok(Flags {
        large: large.set,
        sweep: sweep.set,
        next: sweep.next,
    })
}

// A point as it is written, or added to the current one.
#[tactic(auto, unfolding(crate::specs::Numbers::moved_of))]
fn moved(relative: bool, current: Point, point: Point) -> Point
    ensures { result ≡ moved_of relative current point }
{
    if relative {
        return math::add(current, point);
    }
    point
}

#[tactic(auto, unfolding(crate::specs::Numbers::read_pair_of))]
pub fn read_pair(
    text: &[u8],
    at: usize,
    relative: bool,
    current: Point,
) -> Result<Coordinates, Refusal>
    ensures { result ≡ read_pair_of text.now at relative current }
{
    // no `?`: it copies a number and its place as one value, which waits for both
    match read_number(text, at) {
        Err(refusal) => Err(refusal),
        Ok(
            Read {
                value: x,
                end: next,
            },
        ) => match read_number(text, next) {
            Err(refusal) => Err(refusal),
            Ok(Read { value: y, end }) => {
                let point = moved(relative, current, Point { x, y });
                Ok(Coordinates {
                    x: point.x,
                    y: point.y,
                    next: end,
                })
            }
        },
    }
}
