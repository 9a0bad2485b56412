// The place past what stands at a place: a run of bytes of one class, or one optional byte.
ghost use Rattle.std.specs.Prelude.{◌≡◌, ℕ, List};
ghost use Rattle.scan.specs.Bytes.{Decides};
ghost use Rattle.scan.specs.Runs.{past_one, past_all, byte_at_of, past_digits_of, past_white_of, past_separators_of, past_sign_of, past_point_of, past_comma_of};

use crate::bytes::{is_digit, is_separator, is_sign, is_white};

// The byte at a place, and 0 past the text.
pub fn byte_at(text: &[u8], at: usize) -> u8
    ensures { result ≡ byte_at_of text.now at }
{
    if at < text.len() { text[at] } else { 0 }
}

// Past all bytes of a class from a place on, by the test of the class.
pub fn past_run<F: Fn(u8) -> bool>(text: &[u8], at: usize, is_member: F) -> usize
    requires { F.IsAlwaysCallable is_member }
    ensures { (class : List ℕ) → Decides (F.post is_member) class → result ≡ past_all class text.now at }
{
    for i in at..text.len() {
        if !is_member(text[i]) {
            return i;
        }
    }
    usize::max(at, text.len())
}

// Past one byte of a class, if one stands at the place.
pub fn past_optional<F: Fn(u8) -> bool>(text: &[u8], at: usize, is_member: F) -> usize
    requires { F.IsAlwaysCallable is_member }
    ensures { (class : List ℕ) → Decides (F.post is_member) class → result ≡ past_one class text.now at }
{
    if at < text.len() && is_member(text[at]) {
        at + 1
    } else {
        at
    }
}

pub fn past_digits(text: &[u8], at: usize) -> usize
    ensures { result ≡ past_digits_of text.now at }
{
    past_run(text, at, is_digit)
}

pub fn past_white(text: &[u8], at: usize) -> usize
    ensures { result ≡ past_white_of text.now at }
{
    past_run(text, at, is_white)
}

pub fn past_separators(text: &[u8], at: usize) -> usize
    ensures { result ≡ past_separators_of text.now at }
{
    past_run(text, at, is_separator)
}

pub fn past_sign(text: &[u8], at: usize) -> usize
    ensures { result ≡ past_sign_of text.now at }
{
    past_optional(text, at, is_sign)
}

pub fn past_point(text: &[u8], at: usize) -> usize
    ensures { result ≡ past_point_of text.now at }
{
    past_optional(text, at, |byte| byte == b'.')
}

pub fn past_comma(text: &[u8], at: usize) -> usize
    ensures { result ≡ past_comma_of text.now at }
{
    past_optional(text, at, |byte| byte == b',')
}
