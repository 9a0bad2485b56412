// The words that arguments are made of: a number, a radius, a rotation, a flag, and the separator
// between two of them. Where the editions part, a function says so by a match on the edition: a
// closure for each edition would say no less, and at each call. Within their callers they take less
// stack: a text with its edition is not copied from call to call (tests/c/stack.c).
ghost use Rattle.std.specs.Prelude.{◌≡◌};
ghost use Rattle.scan.specs.Bytes.{among, flags};
ghost use Rattle.strict_grammar.specs.Spans.{Byte};
ghost use Rattle.strict_grammar.specs.Grammar.{white_of, number, nonnegative-number, rotation};
ghost use Rattle.strict_grammar.specs.Words.{past_white_in, past_separator_of, past_gap_of};
ghost use Rattle.strict_grammar.specs.declared.Edition.TheVariants.{Svg11, Svg2};
ghost use Rattle.strict_argument.specs.Reading.{Reads};

use scan::{
    NumberError, byte_at, is_flag, is_sign, is_white, past_comma, past_digits, past_point,
    past_run, past_sign, past_white, scan_number,
};
use strict_grammar::Edition;

// A text that is read under an edition of the grammar.
#[derive(Clone, Copy)]
pub struct Text<'a> {
    pub bytes: &'a [u8],
    pub edition: Edition,
}

// White space of SVG 2, which a form feed is.
fn is_space_2(byte: u8) -> bool
    ensures { result ≡ among byte (white_of Svg2) }
{
    is_white(byte) | (byte == 12)
}

fn past_space_2(text: &[u8], at: usize) -> usize
    ensures { result ≡ past_white_in Svg2 text.now at }
{
    past_run(text, at, is_space_2)
}

#[inline(always)]
pub fn past_space(text: Text, at: usize) -> usize
    ensures { result ≡ past_white_in text.entry.edition text.entry.bytes.now at }
{
    match text.edition {
        Edition::Svg11 => past_white(text.bytes, at),
        Edition::Svg2 => past_space_2(text.bytes, at),
    }
}

// Past what may stand between two commands: white space, and in SVG 2 nothing.
#[inline(always)]
pub fn past_gap(text: Text, at: usize) -> usize
    ensures { result ≡ past_gap_of text.entry.edition text.entry.bytes.now at }
{
    match text.edition {
        Edition::Svg11 => past_space(text, at),
        Edition::Svg2 => at,
    }
}

// Past white space, one comma if it stands there, and white space.
#[inline(always)]
pub fn past_separator(text: Text, at: usize) -> usize
    ensures { result ≡ past_separator_of text.entry.edition text.entry.bytes.now at }
{
    past_space(text, past_comma(text.bytes, past_space(text, at)))
}

// A number of SVG 1.1, the longest that there is: of `1e` it is the digit, and the e is left.
fn number_11(text: &[u8], at: usize) -> Option<usize>
    ensures { Reads (number Svg11 text.now) at result }
{
    match scan_number(text, at) {
        Ok(places) => Some(places.end),
        Err(NumberError::NoExponentDigit(mark)) => Some(mark),
        Err(NumberError::NoDigit(_)) => None,
    }
}

// A number of SVG 2 with its sign: of `1.` it is the digit, and the point is left; of `1e3` it is the
// digit, and the e is left.
fn number_2(text: &[u8], at: usize) -> Option<usize>
    ensures { Reads (number Svg2 text.now) at result }
{
    let whole = past_sign(text, at);
    let point = past_digits(text, whole);
    let fraction = past_point(text, point);
    let end = past_digits(text, fraction);
    if fraction < end {
        return Some(end);
    }
    if whole < point {
        return Some(point);
    }
    None
}

#[inline(always)]
pub fn read_number(text: Text, at: usize) -> Option<usize>
    ensures { Reads (number text.entry.edition text.entry.bytes.now) at result }
{
    match text.edition {
        Edition::Svg11 => number_11(text.bytes, at),
        Edition::Svg2 => number_2(text.bytes, at),
    }
}

// A radius: a number before which no sign stands. Its exponent may have one.
#[inline(always)]
pub fn read_radius(text: Text, at: usize) -> Option<usize>
    ensures { Reads (nonnegative-number text.entry.edition text.entry.bytes.now) at result }
{
    let first = byte_at(text.bytes, at);
    if is_sign(first) {
        return None;
    }
    read_number(text, at)
}

// A rotation: a number, before which no sign stands in SVG 2.
#[inline(always)]
pub fn read_rotation(text: Text, at: usize) -> Option<usize>
    ensures { Reads (rotation text.entry.edition text.entry.bytes.now) at result }
{
    match text.edition {
        Edition::Svg11 => read_number(text, at),
        Edition::Svg2 => read_radius(text, at),
    }
}

// A flag, which is one byte: of `10` it is the 1.
#[inline(always)]
pub fn read_flag(text: &[u8], at: usize) -> Option<usize>
    ensures { Reads (Byte text.now flags) at result }
{
    if at < text.len() && is_flag(text[at]) {
        Some(at + 1)
    } else {
        None
    }
}
