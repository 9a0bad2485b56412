// The numbers of digit runs, gathered while the run is passed.
ghost use Rattle.std.specs.Prelude.{◌≡◌, ℕ, ◌+◌, ◌-◌, ◌*◌, ◌^◌, ◌<◌, ◌≤◌, true, length};
ghost use Rattle.scan.specs.Runs.{byte_at_of, past_digits_of};
ghost use Rattle.decimal_digits.specs.Leading.{Fills, Gathers};
ghost use Rattle.decimal_digits.specs.Exponent.{capped, exponent_of};

use crate::words::{all_digits, power, run_at};
use scan::{is_digit, past_digits};

// The number that a digit's byte stands for.
pub fn digit(byte: u8) -> u64
    requires { (48 ≤ byte) × (byte ≤ 57) }
    ensures { result ≡ byte - 48 }
{
    (byte - 48) as u64
}

// A number's digits so far: the first of them as a number, and how many more there were.
#[derive(Clone, Copy, Debug, PartialEq, Eq)]
pub struct Leading {
    // The place past the digits.
    pub at: usize,
    pub w: u64,
    pub dropped: usize,
}

// Digits taken into a number.
#[derive(Clone, Copy, Debug, PartialEq, Eq)]
pub struct Taken {
    // The place past them.
    pub at: usize,
    pub w: u64,
}

// Takes digits from a place on as long as w has 18 digits or fewer, so that w has 19 where there are
// more.
fn fill(text: &[u8], from: usize, w: u64) -> Taken
    ensures { Fills text.now from w result }
{
    let mut held = w;
    for at in from..text.len() {
        if 1000000000000000000 <= held || !is_digit(text[at]) {
            return Taken { at, w: held };
        }
        held = held * 10 + digit(text[at]);
    }
    Taken {
        at: usize::max(from, text.len()),
        w: held,
    }
}

// Whether a text has so many bytes from a place on.
fn has(text: &[u8], at: usize, count: usize) -> bool
    ensures { result ≡ true → at + count ≤ length text.now }
{
    if count <= text.len() {
        at <= text.len() - count
    } else {
        false
    }
}

// The place past the digits from a place on: faster than `past_digits` where there are many.
fn past_many_digits(text: &[u8], from: usize) -> usize
    ensures { result ≡ past_digits_of text.now from }
{
    let mut at = from;
    while has(text, at, 16) {
        if all_digits(text, at) & all_digits(text, at + 8) {
            at += 16;
        } else {
            break;
        }
    }
    past_digits(text, at)
}

// Passes the digits that are left where w has 19.
fn pass_rest(text: &[u8], taken: Taken, dropped: usize) -> Leading
    requires { (dropped ≤ taken.at) × (taken.w < 10 ^ 18 → past_digits_of text.now taken.at ≡ taken.at) }
    ensures { Gathers text.now taken.at taken.w dropped result }
{
    let at = taken.at;
    let w = taken.w;
    if w < 1000000000000000000 {
        return Leading { at, w, dropped };
    }
    let end = past_many_digits(text, at);
    Leading {
        at: end,
        w,
        dropped: dropped + (end - at),
    }
}

// Passes the digits from a place on, and adds them to the digits before. The place and these are no
// Leading: a point may stand between, so that each call would make one up.
pub fn gather(text: &[u8], from: usize, w: u64, dropped: usize) -> Leading
    requires { dropped ≤ from }
    ensures { Gathers text.now from w dropped result }
{
    let taken = fill(text, from, w);
    pass_rest(text, taken, dropped)
}

// The same eight bytes at a time, which pays from three digits on: a fraction has them, a whole part
// has not.
pub fn gather_many(text: &[u8], from: usize, w: u64, dropped: usize) -> Leading
    requires { dropped ≤ from }
    ensures { Gathers text.now from w dropped result }
{
    let mut at = from;
    let mut held = w;
    while held < 100000000000 {
        if !has(text, at, 8) {
            break;
        }
        let run = run_at(text, at);
        let count = run.count;
        held = held * power(count) + run.value;
        at += count as usize;
        if count < 8 {
            return Leading {
                at,
                w: held,
                dropped,
            };
        }
    }
    let taken = fill(text, at, held);
    pass_rest(text, taken, dropped)
}

// A number's digits from a place on whose byte is known.
pub fn whole_digits(text: &[u8], from: usize, byte: u8) -> Taken
    requires { byte ≡ byte_at_of text.now from }
    ensures { Fills text.now from 0 result }
{
    if is_digit(byte) {
        return fill(text, from + 1, digit(byte));
    }
    Taken { at: from, w: 0 }
}

// The digits behind a point, added to those before it. Within a text most of them stand in eight bytes;
// where a number is all of a text, these would be looked for in vain.
pub fn fraction_digits(text: &[u8], from: usize, w: u64, within: bool) -> Taken
    ensures { Fills text.now from w result }
{
    if within {
        if w < 100000000000 {
            if has(text, from, 8) {
                let run = run_at(text, from);
                let count = run.count;
                let at = from + count as usize;
                let held = w * power(count) + run.value;
                if count < 8 {
                    return Taken { at, w: held };
                }
                return fill(text, at, held);
            }
        }
    }
    fill(text, from, w)
}

// An exponent: the place past its digits, and their number, or 93 * 10^17 where they are more.
#[derive(Clone, Copy, Debug, PartialEq, Eq)]
pub struct Power {
    pub at: usize,
    pub size: u64,
}

// The exponent whose digits start at a place.
pub fn exponent(text: &[u8], from: usize) -> Power
    ensures { result ≡ exponent_of text.now from }
{
    let mut size = 0;
    for at in from..text.len() {
        if !is_digit(text[at]) {
            return Power { at, size };
        }
        size = longer(size, digit(text[at]));
    }
    Power {
        at: usize::max(from, text.len()),
        size,
    }
}

// One digit more of an exponent.
fn longer(size: u64, digit: u64) -> u64
    requires { digit < 10 }
    ensures { (n : ℕ) → size ≡ capped n → result ≡ capped (n * 10 + digit) }
{
    if size < 930000000000000000 {
        return size * 10 + digit;
    }
    9300000000000000000
}
