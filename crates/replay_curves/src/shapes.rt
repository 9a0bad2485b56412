// Shapes: the Rust's resampling, morphs and bounds.
ghost use Rattle.std.specs.Prelude.{◌≤◌};

use crate::rows::numbers_at;
use answers::{Refusal, Values};
use morph::Morphed;
use replay_records::{Count, float, has_bits, lent, pattern, read_numbers, same_numbers, seen};
use std::io;
use std::io::Read;

// A line has a letter (r: resample, m: a morph with a resolution, e: evaluate, b: bounds) and patterns
// of eight hexadecimal digits: the counts of the two lists' numbers, the count, the progress, the lists
// (16 numbers each, zeros past the count), the refusal's number or 0, four values, and the 16 places of
// each output afterwards.
const LINE: usize = 659;

const TO: usize = 182;

const NUMBER: usize = 326;

const FIRST: usize = 371;

const SECOND: usize = 515;

// A morph with the default makes 128 points and more, and has a wide line: the letter d, the counts of
// the two lists' numbers, the lists (258 numbers each), the refusal's number or 0, two values, and the
// 258 places of each output afterwards.
const WIDE: usize = 9335;

const WIDE_TO: usize = 2342;

const WIDE_NUMBER: usize = 4664;

const WIDE_FIRST: usize = 4691;

const WIDE_SECOND: usize = 7013;

// What stands in an output before a call.
const BEFORE: u32 = 0xc2f6_e979;

pub fn replay(reader: &mut impl Read, count: Count) -> io::Result<Count> {
    let mut line = [0u8; LINE];
    let n = input::read_full(reader, &mut line)?;
    Ok(seen(count, agrees(&line[..n])))
}

pub fn replay_default(reader: &mut impl Read, count: Count) -> io::Result<Count> {
    let mut line = [0u8; WIDE];
    let n = input::read_full(reader, &mut line)?;
    Ok(seen(count, morphed_by_default(&line[..n])))
}

// Whether the call of a whole line gives what is recorded.
fn agrees(line: &[u8]) -> bool {
    if line.len() < LINE {
        return false;
    }
    let from = numbers_at::<16>(line, 38);
    let to = numbers_at::<16>(line, TO);
    let n = lent(pattern(line, 2), &from);
    let m = lent(pattern(line, 11), &to);
    let count = pattern(line, 20) as usize;
    let t = float(pattern(line, 29));
    match line[0] {
        b'r' => resampled(line, &from[..n], count),
        b'm' => morphed(line, &from[..n], &to[..m], count),
        b'e' => evaluated(line, &from[..n], &to[..m], t),
        b'b' => bounded(line, &from[..n], &to[..m], t),
        _ => false,
    }
}

// Whether the answer that is recorded from this place on has this number and these values.
fn answered(line: &[u8], at: usize, number: u32, values: Values) -> bool
    requires { at ≤ 4664 }
{
    if pattern(line, at) != number {
        return false;
    }
    let first = pattern(line, at + 9) as usize;
    let second = pattern(line, at + 18) as usize;
    match values {
        Values::Nothing => true,
        Values::One(a) => first == a,
        Values::Two(a, b) => first == a && second == b,
        _ => false,
    }
}

fn refused(line: &[u8], at: usize, refusal: Refusal) -> bool
    requires { at ≤ 4664 }
{
    answered(line, at, refusal.number(), refusal.carried())
}

// Whether so many numbers were given, or the refusal.
fn counted(line: &[u8], given: Result<usize, Refusal>) -> bool {
    match given {
        Ok(numbers) => answered(line, NUMBER, 0, Values::One(numbers)),
        Err(refusal) => refused(line, NUMBER, refusal),
    }
}

fn resampled(line: &[u8], points: &[f32], count: usize) -> bool {
    let mut out = [float(BEFORE); 16];
    let given = resample::resample(points, count, &mut out);
    same_numbers(&out, line, FIRST, 9) && counted(line, given)
}

fn of_morph(line: &[u8], at: usize, given: Result<Morphed, Refusal>) -> bool
    requires { at ≤ 4664 }
{
    match given {
        Ok(numbers) => answered(line, at, 0, Values::Two(numbers.from, numbers.to)),
        Err(refusal) => refused(line, at, refusal),
    }
}

fn morphed(line: &[u8], from: &[f32], to: &[f32], resolution: usize) -> bool {
    let mut one = [float(BEFORE); 16];
    let mut other = [float(BEFORE); 16];
    let given = morph::morph(from, to, resolution, &mut one, &mut other);
    same_numbers(&one, line, FIRST, 9)
        && same_numbers(&other, line, SECOND, 9)
        && of_morph(line, NUMBER, given)
}

// Whether the morph of a whole wide line gives what is recorded.
fn morphed_by_default(line: &[u8]) -> bool {
    if line.len() < WIDE {
        return false;
    }
    let from = numbers_at::<258>(line, 20);
    let to = numbers_at::<258>(line, WIDE_TO);
    let n = lent(pattern(line, 2), &from);
    let m = lent(pattern(line, 11), &to);
    let mut one = [float(BEFORE); 258];
    let mut other = [float(BEFORE); 258];
    let given = morph::morph_default(&from[..n], &to[..m], &mut one, &mut other);
    same_numbers(&one, line, WIDE_FIRST, 9)
        && same_numbers(&other, line, WIDE_SECOND, 9)
        && of_morph(line, WIDE_NUMBER, given)
}

fn evaluated(line: &[u8], from: &[f32], to: &[f32], t: f32) -> bool {
    let mut out = [float(BEFORE); 16];
    let given = morph::evaluate(from, to, t, &mut out);
    same_numbers(&out, line, FIRST, 9) && counted(line, given)
}

// Whether one bound has the pattern at this place.
fn bound(line: &[u8], at: usize, x: f32) -> bool {
    has_bits(x, pattern(line, at))
}

fn bounded(line: &[u8], from: &[f32], to: &[f32], t: f32) -> bool {
    match morph::bounds_at(from, to, t) {
        Ok(bounds) => {
            pattern(line, NUMBER) == 0
                && bound(line, NUMBER + 9, bounds.min_x)
                && bound(line, NUMBER + 18, bounds.min_y)
                && bound(line, NUMBER + 27, bounds.max_x)
                && bound(line, NUMBER + 36, bounds.max_y)
        }
        Err(refusal) => refused(line, NUMBER, refusal),
    }
}
