// Eight bytes of a text at once: how many digits they begin with, and the number of these.
ghost use Rattle.std.specs.Prelude.{◌≡◌, ℕ, ◌+◌, ◌*◌, ◌/◌, ◌^◌, ◌<◌, ◌≤◌, true, List, length, bit_and, bit_xor};
ghost use Rattle.decimal_digits.specs.Digits.{val};
ghost use Rattle.decimal_digits.specs.Words.{laid, eight_of, begun, each, others_of, Below, Runs};

// The eight bytes from a place on: one load in the compiled code.
fn word_at(text: &[u8], at: usize) -> u64
    requires { at + 8 ≤ length text.now }
    ensures { result ≡ laid 8 (eight_of text.now at) }
{
    u64::from_le_bytes([
        text[at],
        text[at + 1],
        text[at + 2],
        text[at + 3],
        text[at + 4],
        text[at + 5],
        text[at + 6],
        text[at + 7],
    ])
}

// Each digit as its number, and every other byte as a number above 9.
fn values(word: u64) -> u64
    ensures { result ≡ bit_xor word (each 48 8) }
{
    word ^ 0x3030_3030_3030_3030
}

// The highest binary digit of each lane above 9, right up to the first of them.
fn others(x: u64) -> u64
    ensures { result ≡ others_of 8 x }
{
    (x.wrapping_add(0x7676_7676_7676_7676) | x) & 0x8080_8080_8080_8080
}

// Each two lanes as one of twice the width. The mask has every second lane.
fn join(x: u64, bits: u64, factor: u64, mask: u64) -> u64
    requires { (bits < 64) × (mask * factor + mask < 2 ^ 64) }
    ensures { result ≡ bit_and x mask * factor + bit_and (x / 2 ^ bits) mask }
{
    (x & mask) * factor + ((x >> bits) & mask)
}

// The number of eight digits.
fn eight(x: u64) -> u64
    ensures { (vs : List ℕ) → length vs ≡ 8 → Below 256 vs → x ≡ laid 8 vs → result ≡ val vs }
{
    let pairs = join(x, 8, 10, 0x00FF_00FF_00FF_00FF);
    let fours = join(pairs, 16, 100, 0x0000_FFFF_0000_FFFF);
    join(fours, 32, 10000, 0xFFFF_FFFF)
}

// The digits that eight bytes begin with.
#[derive(Clone, Copy)]
pub(crate) struct Run {
    pub count: u64,
    pub value: u64,
}

// The digits that the eight bytes from a place on begin with. Where they are fewer, they are moved up,
// so that zeros stand before them: by two shifts, as none by 64 is one.
pub(crate) fn run_at(text: &[u8], at: usize) -> Run
    requires { at + 8 ≤ length text.now }
    ensures { Runs text.now at result }
{
    let x = values(word_at(text, at));
    let marks = others(x);
    if marks == 0 {
        return Run {
            count: 8,
            value: eight(x),
        };
    }
    let count = (marks.trailing_zeros() as u64) / 8;
    let up = 4 * (8 - count);
    Run {
        count,
        value: eight((x << up) << up),
    }
}

// 10^count.
pub(crate) fn power(count: u64) -> u64
    requires { count ≤ 8 }
    ensures { result ≡ 10 ^ count }
{
    match count {
        0 => 1,
        1 => 10,
        2 => 100,
        3 => 1000,
        4 => 10000,
        5 => 100000,
        6 => 1000000,
        7 => 10000000,
        _ => 100000000,
    }
}

// Whether the eight bytes from a place on are digits.
pub(crate) fn all_digits(text: &[u8], at: usize) -> bool
    requires { at + 8 ≤ length text.now }
    ensures { result ≡ true → length (begun (eight_of text.now at)) ≡ 8 }
{
    others(values(word_at(text, at))) == 0
}
