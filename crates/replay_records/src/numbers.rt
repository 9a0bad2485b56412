// Rows of a record: patterns a step apart as numbers or held against numbers, how many of them are lent, and bytes held against
// bytes.
ghost use Rattle.std.specs.Prelude.{◌≡◌, ◌+◌, ◌≤◌, min, length, ◌==◌};
ghost use Rattle.replay_records.specs.Numbers.{Begins, onward_of, numbers_of, same_numbers, same_bytes};

use crate::{float, pattern};
use floats::bits;

// The offset of a row's next pattern. Past the text's end it stays where it is, for every pattern there is 0.
fn onward(text: &[u8], offset: usize, step: u32) -> usize
    ensures { result ≡ onward_of text.now offset step }
{
    if offset < text.len() {
        offset + step as usize
    } else {
        offset
    }
}

// Puts the floats of as many patterns as out has numbers into it: the first from `at` on, each `step` bytes past the one before.
pub fn read_numbers(text: &[u8], at: usize, step: u32, out: &mut [f32])
    ensures { out.new ≡ numbers_of text.now at step (length out.old) }
{
    let mut offset = at;
    for x in out.iter_mut() {
        *x = float(pattern(text, offset));
        offset = onward(text, offset, step);
    }
}

// How many numbers are lent, from the first on: as many as the record says, at most all. `&numbers[..n]` then needs no proof file.
pub fn lent(count: u32, numbers: &[f32]) -> usize
    ensures begins { Begins result numbers.now }
    ensures value { result ≡ min count (length numbers.now) }
{
    let wanted = count as usize;
    if wanted < numbers.len() {
        wanted
    } else {
        numbers.len()
    }
}

// Whether numbers have the patterns from `at` on, each `step` bytes past the one before.
pub fn same_numbers(numbers: &[f32], text: &[u8], at: usize, step: u32) -> bool
    ensures { result ≡ same_numbers numbers.now text.now at step }
{
    let mut offset = at;
    for x in numbers {
        if bits(*x) != pattern(text, offset) {
            return false;
        }
        offset = onward(text, offset, step);
    }
    true
}

// Whether the text has these bytes from `at` on, each raised by `by`: 0 for letters, b'0' for numbers that are recorded as digits.
pub fn same_bytes(bytes: &[u8], by: u8, text: &[u8], at: usize) -> bool
    requires { at + length bytes.now ≤ length text.now }
    ensures { result ≡ same_bytes bytes.now by text.now at }
{
    let due = &text[at..at + bytes.len()];
    bytes.iter().zip(due).all(|(byte, due)| u32::from(*byte) + u32::from(by) == u32::from(*due))
}
