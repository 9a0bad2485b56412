// The usual number in one pass: a sign, digits, a point and eight digits at most. What is not so, or lies too near
// the middle of two floats, is not told, and left to `number`. The value goes into memory and the place is returned, so
// that what stands behind the number does not wait for its value.
ghost use Rattle.std.specs.Prelude.{◌≡◌, ℕ, ◌≤◌, ◌<◌, length};
ghost use Rattle.scan.specs.Runs.{byte_at_of, past_sign_of};
ghost use Rattle.decimal.specs.Decimal.{number_of};
ghost use Rattle.decimal.specs.Bits.{Settled, Quick};

use crate::magnitudes::{narrow, pattern, signed, tells};
use decimal_digits::inner::{fraction_digits, whole_digits};
use scan::{byte_at, is_exponent_mark, is_sign};

// Where a number's digits start, and the byte there.
#[derive(Clone, Copy)]
pub struct Front {
    pub at: usize,
    pub byte: u8,
}

// Past a sign. The byte is read in either case, which makes the sign a branch: the place past it waits for no byte.
fn lead(text: &[u8], at: usize) -> Front
    ensures { (result.at ≡ past_sign_of text.now at) × (result.byte ≡ byte_at_of text.now result.at) }
{
    let byte = byte_at(text, at);
    if is_sign(byte) {
        return Front {
            at: at + 1,
            byte: byte_at(text, at + 1),
        };
    }
    Front { at, byte }
}

// The value w / 10^places of a number that ends at a place, or 0 where one division does not tell it.
fn settle(w: u64, places: usize, negative: bool, end: usize, out: &mut [f32; 1]) -> usize
    requires { length out.old ≡ 1 }
    ensures { 0 < result → Settled w places negative end result out.new }
{
    if 9007199254740992 <= w {
        return 0;
    }
    if 8 < places {
        return 0;
    }
    let b = pattern(w, places as u64);
    if tells(b) {
        out[0] = signed(narrow(w, b), negative);
        return end;
    }
    0
}

// The place past the number that starts at a place, with its value in out, or 0 where that is not told. That it stands
// within a text, with more behind it, makes it faster.
pub fn quick(text: &[u8], at: usize, within: bool, out: &mut [f32; 1]) -> usize
    requires { length out.old ≡ 1 }
    ensures { 0 < result → Quick (number_of text.now at) result out.new }
{
    let led = lead(text, at);
    let whole = led.at;
    let negative = byte_at(text, at) == b'-';
    let first = whole_digits(text, whole, led.byte);
    let point = first.at;
    let byte = byte_at(text, point);
    if byte != b'.' {
        if (whole == point) | is_exponent_mark(byte) {
            return 0;
        }
        return settle(first.w, 0, negative, point, out);
    }
    let fraction = point + 1;
    let all = fraction_digits(text, fraction, first.w, within);
    let end = all.at;
    if (whole == point) & (fraction == end) {
        return 0;
    }
    if is_exponent_mark(byte_at(text, end)) {
        return 0;
    }
    settle(all.w, end - fraction, negative, end, out)
}
