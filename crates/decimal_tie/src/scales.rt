// A word has 50 binary digits here, so that ten of it and a carry fit 64.
ghost use Rattle.std.specs.Prelude.{◌≡◌, ◌⊎◌, length, drop};
ghost use Prim.Native.Nat.{ℕ, ◌+◌, ◌*◌, ◌^◌, ◌≤◌, ◌<◌, compare};
ghost use Rattle.decimal_digits.specs.Digits.{digits_among};
ghost use Rattle.decimal_tie.specs.Words.{wide_of, Small, Tens, Splits};
ghost use Rattle.decimal_tie.specs.Weighing.{order_of, against, Takes, Wholes, Lowers, weigh_of};

use decimal_digits::inner::digit;
use scan::is_digit;
use std::cmp::Ordering;

// a * 2^100 + b * 2^50 + c, in the order of these numbers. That the words are small is asked and told by
// Small, and no ghost field: in_six_words would show it of twelve numbers where Splits says it of two.
#[derive(Clone, Copy, PartialEq, Eq, PartialOrd, Ord)]
pub struct Wide {
    pub a: u64,
    pub b: u64,
    pub c: u64,
}

const NOTHING: Wide = Wide { a: 0, b: 0, c: 0 };

// A number of four words: the first, and the three after it.
#[derive(Clone, Copy)]
pub struct Tenfold {
    pub out: u64,
    pub rest: Wide,
}

// Ten times a number of three words, and a digit.
fn times_ten(w: Wide, digit: u64) -> Tenfold
    requires { Small w × (digit < 10) }
    ensures { Tens w digit result }
{
    let x = w.c * 10 + digit;
    let y = w.b * 10 + x / 1125899906842624;
    let z = w.a * 10 + y / 1125899906842624;
    Tenfold {
        out: z / 1125899906842624,
        rest: Wide {
            a: z % 1125899906842624,
            b: y % 1125899906842624,
            c: x % 1125899906842624,
        },
    }
}

fn compare_wide(v: Wide, w: Wide) -> Ordering
    requires { Small v × Small w }
    ensures { order_of result ≡ compare (wide_of v) (wide_of w) }
{
    v.cmp(&w)
}

// The digits of a part from a place on, as a fraction below 1, against f / 2^150. A byte that is no
// digit, as the point, is passed over.
fn compare_rest(part: &[u8], from: usize, f: Wide) -> Ordering
    requires { Small f }
    ensures { order_of result ≡ against (digits_among (drop from part.now)) (wide_of f) }
{
    let mut w = f;
    for i in from..part.len() {
        if !is_digit(part[i]) {
            continue;
        }
        let d = digit(part[i]);
        let t = times_ten(w, 0);
        match d.cmp(&t.out) {
            Ordering::Equal => w = t.rest,
            order => return order,
        }
    }
    compare_wide(NOTHING, w)
}

#[derive(Clone, Copy)]
pub struct Taken {
    pub digit: u64,
    pub at: usize,
}

// The first digit from a place on, and the place past it; 0 where there is none left.
fn take(part: &[u8], from: usize) -> Taken
    ensures { Takes part.now from result }
{
    for i in from..part.len() {
        if is_digit(part[i]) {
            return Taken {
                digit: digit(part[i]),
                at: i + 1,
            };
        }
    }
    Taken {
        digit: 0,
        at: part.len(),
    }
}

// The first digits of a part as a number, and the place past them.
#[derive(Clone, Copy)]
pub struct Whole {
    pub number: Wide,
    pub at: usize,
}

// The first digits of a part as a number, with zeros after the last digit; none where it is 2^150 or
// more.
fn whole_digits(part: &[u8], count: u64) -> Option<Whole>
    ensures { Wholes part.now count result }
{
    let mut at = 0;
    let mut w = NOTHING;
    'digits: for _ in 0..count {
        let d = take(part, at);
        let t = times_ten(w, d.digit);
        if 0 < t.out {
            return None;
        }
        w = t.rest;
        at = d.at;
    }
    Some(Whole { number: w, at })
}

// f times 10^zeros; none where it is 2^150 or more.
fn lower(f: Wide, zeros: u64) -> Option<Wide>
    requires { Small f }
    ensures { Lowers f zeros result }
{
    let mut w = f;
    'zeros: for _ in 0..zeros {
        let t = times_ten(w, 0);
        if 0 < t.out {
            return None;
        }
        w = t.rest;
    }
    Some(w)
}

// A number in halves of 2^-149: what is whole of it, and the fraction over 2^150.
#[derive(Clone, Copy)]
pub struct Six {
    pub whole: Wide,
    pub fraction: Wide,
}

// odd * 2^k in six words.
fn in_six_words(odd: u64, k: u64) -> Six
    requires { (odd < 2 ^ 25) × (k ≤ 253) }
    ensures { Splits (odd * 2 ^ k) result }
{
    let up = k % 50;
    let high = odd >> (50 - up);
    let low = (odd - (high << (50 - up))) << up;
    match k / 50 {
        0 => Six {
            whole: NOTHING,
            fraction: Wide {
                a: 0,
                b: high,
                c: low,
            },
        },
        1 => Six {
            whole: NOTHING,
            fraction: Wide {
                a: high,
                b: low,
                c: 0,
            },
        },
        2 => Six {
            whole: Wide {
                a: 0,
                b: 0,
                c: high,
            },
            fraction: Wide { a: low, b: 0, c: 0 },
        },
        3 => Six {
            whole: Wide {
                a: 0,
                b: high,
                c: low,
            },
            fraction: NOTHING,
        },
        4 => Six {
            whole: Wide {
                a: high,
                b: low,
                c: 0,
            },
            fraction: NOTHING,
        },
        _ => Six {
            whole: Wide { a: low, b: 0, c: 0 },
            fraction: NOTHING,
        },
    }
}

// A number below 1, with so many zeros after the point, against the number of six words.
fn weigh_small(part: &[u8], zeros: u64, above: Wide, fraction: Wide) -> Ordering
    requires { Small above × Small fraction }
    ensures { order_of result ≡ weigh_of (digits_among part.now) 0 zeros (wide_of above * 2 ^ 150 + wide_of fraction) }
{
    if above != NOTHING {
        return Ordering::Less;
    }
    match lower(fraction, zeros) {
        Some(w) => compare_rest(part, 0, w),
        None => Ordering::Less,
    }
}

// A number with so many digits before the point, against the number of six words.
fn weigh_large(part: &[u8], count: u64, above: Wide, fraction: Wide) -> Ordering
    requires { Small above × Small fraction }
    ensures { order_of result ≡ weigh_of (digits_among part.now) count 0 (wide_of above * 2 ^ 150 + wide_of fraction) }
{
    let Some(whole) = whole_digits(part, count) else {
        return Ordering::Greater;
    };
    match compare_wide(whole.number, above) {
        Ordering::Equal => compare_rest(part, whole.at, fraction),
        order => order,
    }
}

// The number whose digits a part has, with the point after the first count of them or zeros before
// the first, against odd * 2^k / 2^150.
pub fn weigh(part: &[u8], count: u64, zeros: u64, odd: u64, k: u64) -> Ordering
    requires { (odd < 2 ^ 25) × (k ≤ 253) × ((count ≡ 0) ⊎ (zeros ≡ 0)) }
    ensures { order_of result ≡ weigh_of (digits_among part.now) count zeros (odd * 2 ^ k) }
{
    let s = in_six_words(odd, k);
    if 0 < zeros {
        return weigh_small(part, zeros, s.whole, s.fraction);
    }
    weigh_large(part, count, s.whole, s.fraction)
}
