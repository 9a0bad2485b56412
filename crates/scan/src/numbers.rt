// A number of path data, found by its places; what it is worth is another crate's matter.
ghost use Rattle.std.specs.Prelude.{◌≡◌};
ghost use Rattle.scan.specs.Runs.{past_mark_of};
ghost use Rattle.scan.specs.Numbers.{scan_number_of};

use crate::bytes::is_exponent_mark;
use crate::runs::{past_digits, past_point, past_sign};

// The places of a number's parts, in the order of the text; none is before the one above it. Its
// digits stand from `whole` up to `point` and from `fraction` up to `mark`, and there is at least
// one; those of its exponent from `exponent` up to `end`, and there is none exactly where it has no
// exponent.
#[derive(Clone, Copy, Debug, PartialEq, Eq)]
pub struct Places {
    // Where the sign stands, if there is one.
    pub start: usize,
    pub whole: usize,
    // Where the point stands, if there is one; then `fraction` is past it, else it is the same place.
    pub point: usize,
    pub fraction: usize,
    // Where the e stands, if there is one, and its sign past it; else `exponent` is the same place.
    pub mark: usize,
    pub exponent: usize,
    pub end: usize,
}

// Why no number stands where one is due.
#[derive(Clone, Copy, Debug, PartialEq, Eq)]
pub enum NumberError {
    // No digit before or after the point; carries the place where the number is due.
    NoDigit(usize),
    // An exponent without a digit; carries the place of its e.
    NoExponentDigit(usize),
}

// Past the e of an exponent and its sign, if an e stands there.
fn past_mark(text: &[u8], at: usize) -> usize
    ensures { result ≡ past_mark_of text.now at }
{
    if at < text.len() {
        if is_exponent_mark(text[at]) {
            return past_sign(text, at + 1);
        }
    }
    at
}

// The number that starts at a place. Separators are not passed here.
pub fn scan_number(text: &[u8], at: usize) -> Result<Places, NumberError>
    ensures { result ≡ scan_number_of text.now at }
{
    let whole = past_sign(text, at);
    let point = past_digits(text, whole);
    let fraction = past_point(text, point);
    let mark = past_digits(text, fraction);
    if (whole == point) & (fraction == mark) {
        return Err(NumberError::NoDigit(at));
    }
    let exponent = past_mark(text, mark);
    let end = past_digits(text, exponent);
    if (mark < exponent) & (exponent == end) {
        return Err(NumberError::NoExponentDigit(mark));
    }
    Ok(Places {
        start: at,
        whole,
        point,
        fraction,
        mark,
        exponent,
        end,
    })
}
