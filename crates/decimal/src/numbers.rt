// A number of a text: its places, its digits and its value in one pass.
ghost use Rattle.std.specs.Prelude.{◌≡◌, ℕ, ◌+◌, ◌*◌, ◌≤◌, ◌<◌};
ghost use Rattle.decimal.specs.Decimal.{value_of, number_of};
ghost use Rattle.decimal.specs.Bits.{Held, Finds};

use crate::magnitudes::{SIGN_PLACE, magnitude, narrow, pattern, signed, tells};
use answers::Refusal;
use decimal_digits::inner::{exponent, gather, gather_many};
use scan::{Places, byte_at, is_exponent_mark, past_point, past_sign};

// A number's value, and the place past it.
#[derive(Clone, Copy, Debug, PartialEq)]
pub struct Read {
    pub value: f32,
    pub end: usize,
}

// A number's places, and what its value is worked out from: the number of its leading digits, the
// count of those after them, and by how many places its exponent moves the point right or left.
#[derive(Clone, Copy)]
pub struct Parts {
    pub places: Places,
    pub w: u64,
    pub dropped: usize,
    pub rise: u64,
    pub fall: u64,
}

// The number that starts at a place, not yet worked out. It is left to one caller, so that no memory
// is passed between the two.
fn find(text: &[u8], at: usize) -> Result<Parts, Refusal>
    ensures { Finds text.now at result }
{
    let whole = past_sign(text, at);
    let first = gather(text, whole, 0, 0);
    let point = first.at;
    let fraction = past_point(text, point);
    let all = gather_many(text, fraction, first.w, first.dropped);
    let mark = all.at;
    if (whole == point) & (fraction == mark) {
        return Err(Refusal::ExpectedNumber(at));
    }
    if !is_exponent_mark(byte_at(text, mark)) {
        let p = Places {
            start: at,
            whole,
            point,
            fraction,
            mark,
            exponent: mark,
            end: mark,
        };
        return Ok(Parts {
            places: p,
            w: all.w,
            dropped: all.dropped,
            rise: 0,
            fall: 0,
        });
    }
    let digits = past_sign(text, mark + 1);
    let power = exponent(text, digits);
    let end = power.at;
    if digits == end {
        return Err(Refusal::InvalidNumber(mark));
    }
    let p = Places {
        start: at,
        whole,
        point,
        fraction,
        mark,
        exponent: digits,
        end,
    };
    let size = power.size;
    if byte_at(text, mark + 1) == b'-' {
        return Ok(Parts {
            places: p,
            w: all.w,
            dropped: all.dropped,
            rise: 0,
            fall: size,
        });
    }
    Ok(Parts {
        places: p,
        w: all.w,
        dropped: all.dropped,
        rise: size,
        fall: 0,
    })
}

// The value of a number whose parts are found.
fn value(text: &[u8], parts: Parts) -> f32
    requires { Held text.now parts.places parts.w parts.dropped parts.rise parts.fall }
    ensures { result ≡ value_of text.now parts.places }
{
    let p = parts.places;
    let w = parts.w;
    let rise = parts.rise;
    let fall = parts.fall;
    let negative = byte_at(text, p.start) == b'-';
    let places = (p.mark - p.fraction) as u64;
    if (w < 9007199254740992) & (rise == 0) & (fall == 0) & (places <= 8) {
        let b = pattern(w, places);
        if tells(b) {
            return signed(narrow(w, b), negative);
        }
    }
    let from = p.whole;
    let to = p.mark;
    let bits = magnitude(
        &text[from..to],
        (p.point - p.whole) as u64,
        places,
        w,
        parts.dropped as u64,
        rise,
        fall,
    );
    if negative {
        f32::from_bits((bits + SIGN_PLACE) as u32)
    } else {
        f32::from_bits(bits as u32)
    }
}

// The number that starts at a place. Separators are not passed here.
pub fn number(text: &[u8], at: usize) -> Result<Read, Refusal>
    ensures { result ≡ number_of text.now at }
{
    let parts = find(text, at)?;
    Ok(Read {
        value: value(text, parts),
        end: parts.places.end,
    })
}
