// What the programs share that replay recorded answers: patterns of eight hexadecimal digits in the
// records, numbers of few decimal digits, rows of both, how an answer is held against them, and the counts
// that the programs print.
#![tactic(auto)]

mod counts;
mod curves;
mod decimals;
mod given;
mod numbers;

ghost use Rattle.std.specs.Prelude.{◌≡◌, ◌<◌};
ghost use Rattle.replay_records.specs.Records.{digit_of, half_of, pattern_of, float_of};

pub use counts::{Count, kind, none, seen, tell};
pub use curves::{number_of, placed, same_answers, turned};
pub use decimals::{one, three, two};
pub use given::{first_of, has_bits, point, same_point};
pub use numbers::{lent, read_numbers, same_bytes, same_numbers};

// The number that eight upper-case hexadecimal digits from this offset on stand for, and 0 where the
// text ends before. Any other byte counts as a digit 0.
pub fn pattern(text: &[u8], at: usize) -> u32
    ensures { result ≡ pattern_of text.now at }
{
    if text.len() < 8 {
        return 0;
    }
    if at > text.len() - 8 {
        return 0;
    }
    let high = half(text[at], text[at + 1], text[at + 2], text[at + 3]);
    let low = half(text[at + 4], text[at + 5], text[at + 6], text[at + 7]);
    high * 65536 + low
}

fn half(a: u8, b: u8, c: u8, d: u8) -> u32
    ensures value { result ≡ half_of a b c d }
    ensures upper_bound { result < 65536 }
{
    digit(a) * 4096 + digit(b) * 256 + digit(c) * 16 + digit(d)
}

fn digit(byte: u8) -> u32
    ensures value { result ≡ digit_of byte }
    ensures upper_bound { result < 16 }
{
    if byte < b'0' {
        return 0;
    }
    if byte <= b'9' {
        return (byte - b'0') as u32;
    }
    if byte < b'A' {
        return 0;
    }
    if byte <= b'F' {
        (byte - b'A') as u32 + 10
    } else {
        0
    }
}

// The float of a pattern, for every NaN's pattern the one NaN.
pub fn float(bits: u32) -> f32
    ensures { result ≡ float_of bits }
{
    if bits % 0x8000_0000 > 0x7f80_0000 {
        return 0.0 / 0.0;
    }
    f32::from_bits(bits)
}
