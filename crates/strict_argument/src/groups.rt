// Arguments of several words, each the first word, a separator or none, and the rest. Within their callers they take less stack: a text
// with its edition is not copied from call to call (tests/c/stack.c).
ghost use Rattle.strict_grammar.specs.Grammar.{coordinate-pair, smooth-curveto-argument, curveto-argument, elliptical-arc-argument};
ghost use Rattle.strict_argument.specs.Reading.{Reads, arc-from-radius, arc-from-rotation, arc-from-large-flag, arc-from-sweep-flag, argument_of};

use crate::words::{Text, past_separator, read_flag, read_number, read_radius, read_rotation};

// What a command's sequence of arguments is made of.
#[derive(Clone, Copy, Debug, PartialEq, Eq)]
pub enum Kind {
    Coordinate,
    Pair,
    TwoPairs,
    ThreePairs,
    Arc,
}

#[inline(always)]
fn pair(text: Text, at: usize) -> Option<usize>
    ensures { Reads (coordinate-pair text.entry.edition text.entry.bytes.now) at result }
{
    let middle = read_number(text, at)?;
    read_number(text, past_separator(text, middle))
}

// The argument of a smooth curve and of a quadratic one.
#[inline(always)]
fn two_pairs(text: Text, at: usize) -> Option<usize>
    ensures { Reads (smooth-curveto-argument text.entry.edition text.entry.bytes.now) at result }
{
    let end = pair(text, at)?;
    pair(text, past_separator(text, end))
}

#[inline(always)]
fn three_pairs(text: Text, at: usize) -> Option<usize>
    ensures { Reads (curveto-argument text.entry.edition text.entry.bytes.now) at result }
{
    let end = pair(text, at)?;
    two_pairs(text, past_separator(text, end))
}

#[inline(always)]
fn arc_from_sweep_flag(text: Text, at: usize) -> Option<usize>
    ensures { Reads (arc-from-sweep-flag text.entry.edition text.entry.bytes.now) at result }
{
    let end = read_flag(text.bytes, at)?;
    pair(text, past_separator(text, end))
}

#[inline(always)]
fn arc_from_large_flag(text: Text, at: usize) -> Option<usize>
    ensures { Reads (arc-from-large-flag text.entry.edition text.entry.bytes.now) at result }
{
    let end = read_flag(text.bytes, at)?;
    arc_from_sweep_flag(text, past_separator(text, end))
}

// The separator before the first flag must stand there, and no test says so: the longest number
// leaves no digit behind it, so no flag can stand there at once.
#[inline(always)]
fn arc_from_rotation(text: Text, at: usize) -> Option<usize>
    ensures { Reads (arc-from-rotation text.entry.edition text.entry.bytes.now) at result }
{
    let end = read_rotation(text, at)?;
    arc_from_large_flag(text, past_separator(text, end))
}

// From the second radius.
#[inline(always)]
fn arc_from_radius(text: Text, at: usize) -> Option<usize>
    ensures { Reads (arc-from-radius text.entry.edition text.entry.bytes.now) at result }
{
    let end = read_radius(text, at)?;
    arc_from_rotation(text, past_separator(text, end))
}

#[inline(always)]
fn arc(text: Text, at: usize) -> Option<usize>
    ensures { Reads (elliptical-arc-argument text.entry.edition text.entry.bytes.now) at result }
{
    let end = read_radius(text, at)?;
    arc_from_radius(text, past_separator(text, end))
}

// One argument of a kind.
pub fn read_argument(text: Text, at: usize, kind: Kind) -> Option<usize>
    ensures { Reads (argument_of text.entry.edition text.entry.bytes.now kind) at result }
{
    match kind {
        Kind::Coordinate => read_number(text, at),
        Kind::Pair => pair(text, at),
        Kind::TwoPairs => two_pairs(text, at),
        Kind::ThreePairs => three_pairs(text, at),
        Kind::Arc => arc(text, at),
    }
}
