// One group of each kind, passed without its values: what does not fit into the reader's own buffers is counted before it is read.
ghost use Rattle.std.specs.Prelude.{◌≡◌};
ghost use Rattle.scan.specs.Numbers.{scan_number_of};
ghost use Rattle.svg_group.specs.Passing.{ended, pass_number_of, pass_numbers_of, pass_arc_of, pass_group_of};

use crate::letters::Kind;
use crate::numbers::read_flags;
use answers::Refusal;
use scan::NumberError;

// Past the number that starts at a place. A match, since `From` for this one caller would stand in another crate.
fn pass_scanned(text: &[u8], start: usize) -> Result<usize, Refusal>
    ensures { result ≡ ended (scan_number_of text.now start) }
{
    match scan::scan_number(text, start) {
        Ok(places) => Ok(places.end),
        Err(NumberError::NoDigit(offset)) => Err(Refusal::ExpectedNumber(offset)),
        Err(NumberError::NoExponentDigit(offset)) => Err(Refusal::InvalidNumber(offset)),
    }
}

// Most numbers have a digit and no exponent: they end past their digits.
#[tactic(auto, unfolding(crate::specs::Passing::pass_number_of))]
fn pass_number(text: &[u8], at: usize) -> Result<usize, Refusal>
    ensures { result ≡ pass_number_of text.now at }
{
    let start = scan::past_separators(text, at);
    if text.len() <= start {
        return Err(Refusal::UnexpectedEnd(text.len()));
    }
    let whole = scan::past_sign(text, start);
    let point = scan::past_digits(text, whole);
    let fraction = scan::past_point(text, point);
    let mark = scan::past_digits(text, fraction);
    if (whole == point) & (fraction == mark) {
        return pass_scanned(text, start);
    }
    if scan::is_exponent_mark(scan::byte_at(text, mark)) {
        return pass_scanned(text, start);
    }
    Ok(mark)
}

#[tactic(auto, using(crate::proofs::Passes::pass_next, crate::proofs::Passes::pass_refused, crate::proofs::Passes::pass_done))]
fn pass_numbers(text: &[u8], at: usize, count: usize) -> Result<usize, Refusal>
    ensures { result ≡ pass_numbers_of text.now count at }
{
    let mut next = at;
    for _ in 0..count {
        next = pass_number(text, next)?;
    }
    Ok(next)
}

#[tactic(auto, using(crate::proofs::Passes::two_pass, crate::proofs::Passes::three_pass))]
fn pass_arc(text: &[u8], at: usize) -> Result<usize, Refusal>
    ensures { result ≡ pass_arc_of text.now at }
{
    let flags = read_flags(text, pass_numbers(text, at, 3)?)?;
    pass_numbers(text, flags.next, 2)
}

// The place past a group of a kind.
#[tactic(auto, using(crate::proofs::Passes::two_pass, crate::proofs::Passes::four_pass, crate::proofs::Passes::six_pass), unfolding(crate::specs::Passing::pass_group_of))]
pub fn pass_group(text: &[u8], at: usize, kind: Kind) -> Result<usize, Refusal>
    ensures { result ≡ pass_group_of text.now at kind }
{
    match kind {
        Kind::Horizontal | Kind::Vertical => pass_number(text, at),
        Kind::Move | Kind::Line | Kind::SmoothQuad => pass_numbers(text, at, 2),
        Kind::SmoothCubic | Kind::Quad => pass_numbers(text, at, 4),
        Kind::Cubic => pass_numbers(text, at, 6),
        Kind::Arc => pass_arc(text, at),
    }
}
