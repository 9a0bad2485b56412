// The steps of sine and cosine on whole numbers. Angles are counted in 2^-56, and each function
// asks that its own is small enough.
ghost use Rattle.std.specs.Prelude.{◌≡◌, ◌+◌, ◌-◌, ◌*◌, ◌/◌, ◌%◌, ◌^◌, ◌<◌, ◌≤◌};
ghost use Rattle.trig_rule.specs.Steps.{half, fixed_of, rest_of, flip_of, square_of, fourth_of, risen, sine_plus, sine_minus, cosine_plus, cosine_minus, gap_of, over_of, drop_of, pack_of};
ghost use Rattle.trig_single.specs.Single.{sine_from};
ghost use Rattle.trig.specs.Ladders.{rungs_of};

// The size of a float, from its bits without the sign.
pub fn fixed(a: u32) -> u64
    requires { (947912704 ≤ a) × (a ≤ 1115684864) }
    ensures { (result ≡ fixed_of a) × (result ≤ 2 ^ 63) }
{
    let m = (a % 0x80_0000 + 0x80_0000) as u64;
    m << (a / 0x80_0000 - 94)
}

// What whole turns leave. `flip` is a number, as `flip_of` is, since signs are added.
#[derive(Clone, Copy)]
pub struct Rest {
    pub size: u64,
    pub flip: u32,
}

// How far x is from the nearest multiple of a turn, and whether it is below it.
pub fn reduce(x: u64) -> Rest
    requires { x ≤ 2 ^ 63 }
    ensures { (result.size ≡ rest_of x) × (result.flip ≡ flip_of x) × (result.size ≤ half) × (result.flip ≤ 1) }
{
    let k = (x + 0x3243_F6A8_885A_308) / 0x6487_ED51_10B4_611 * 0x6487_ED51_10B4_611;
    if k <= x {
        Rest {
            size: x - k,
            flip: 0,
        }
    } else {
        Rest {
            size: k - x,
            flip: 1,
        }
    }
}

// a + v·h / 2^32. The remainders change nothing: they show a compiler that both factors have 32 digits, so that a loop over such
// products is laid over lanes. The same holds of the squares below.
pub fn rise(a: u64, v: u64, h: u64) -> u64
    requires { (a < 2 ^ 32) × (v < 2 ^ 32) × (h < 2 ^ 32) }
    ensures { (result ≡ risen a v h) × (result ≤ a + h) }
{
    a + (v % 0x1_0000_0000) * (h % 0x1_0000_0000) / 0x1_0000_0000
}

// r^2 / 16 in units of 2^-32.
pub fn square(r: u64) -> u64
    requires { r < 2 ^ 58 }
    ensures { (result ≡ square_of r) × (result < 2 ^ 32) }
{
    let p = r / 0x400_0000 % 0x1_0000_0000;
    p * p / 0x1_0000_0000
}

// r^4 / 256 in units of 2^-32.
pub fn fourth(r: u64) -> u64
    requires { r < 2 ^ 58 }
    ensures { (result ≡ fourth_of r) × (result < 2 ^ 32) }
{
    let z = square(r) % 0x1_0000_0000;
    z * z / 0x1_0000_0000
}

// What a sum adds, and what it takes away.
#[derive(Clone, Copy)]
pub struct Sides {
    pub plus: u64,
    pub minus: u64,
}

// The numbers of a + v·(b + v·(c + v·(d + v·e))), where v is a fraction in units of 2^-32.
#[derive(Clone, Copy)]
pub struct Ladder {
    pub a: u64,
    pub b: u64,
    pub c: u64,
    pub d: u64,
    pub e: u64,
    ghost room: { a + b + c + d + e < 2 ^ 32 },
}

// 16^k·2^30 / (2k+1)! of the even k and of the odd ones.
pub const SINE_PLUS: Ladder = Ladder {
    a: 0x4000_0000,
    b: 2290649224,
    c: 193917394,
    d: 2892940,
    e: 12965,
};

pub const SINE_MINUS: Ladder = Ladder {
    a: 2863311530,
    b: 872628276,
    c: 28206166,
    d: 220414,
    e: 0,
};

// 16^k·2^28 / (2k)! of the even k and of the odd ones.
pub const COSINE_PLUS: Ladder = Ladder {
    a: 0x1000_0000,
    b: 2863311530,
    c: 436314138,
    d: 9402055,
    e: 55103,
};

pub const COSINE_MINUS: Ladder = Ladder {
    a: 2147483648,
    b: 1527099483,
    c: 77566957,
    d: 826554,
    e: 2881,
};

// a + v·(b + v·(c + v·(d + v·e))) for the numbers of a ladder.
pub fn rungs(l: Ladder, v: u64) -> u64
    requires { v < 2 ^ 32 }
    ensures { (result ≡ rungs_of l.a l.b l.c l.d l.e v) × (result ≤ l.a + l.b + l.c + l.d + l.e) }
{
    rise(l.a, v, rise(l.b, v, rise(l.c, v, rise(l.d, v, l.e))))
}

// The sides of the series whose ladders are `up` and `down`. A call knows their numbers.
#[inline(always)]
fn sides_by(r: u64, up: Ladder, down: Ladder) -> Sides
    requires { r < 2 ^ 58 }
    ensures plus { (result.plus ≡ rungs_of up.a up.b up.c up.d up.e (fourth_of r)) × (result.plus < 2 ^ 32) }
    ensures minus { (result.minus ≡ risen 0 (square_of r) (rungs_of down.a down.b down.c down.d down.e (fourth_of r))) × (result.minus < 2 ^ 32) }
{
    let v = fourth(r);
    Sides {
        plus: rungs(up, v),
        minus: rise(0, square(r), rungs(down, v)),
    }
}

// sin r / r in units of 2^-30.
pub fn sine_sides(r: u64) -> Sides
    requires { r ≤ half }
    ensures { (result.plus ≡ sine_plus r) × (result.minus ≡ sine_minus r) × (result.plus < 2 ^ 32) × (result.minus < 2 ^ 32) }
{
    sides_by(r, SINE_PLUS, SINE_MINUS)
}

// cos r in units of 2^-28.
pub fn cosine_sides(r: u64) -> Sides
    requires { r ≤ half }
    ensures { (result.plus ≡ cosine_plus r) × (result.minus ≡ cosine_minus r) × (result.plus < 2 ^ 32) × (result.minus < 2 ^ 32) }
{
    sides_by(r, COSINE_PLUS, COSINE_MINUS)
}

// The size of a - t.
pub fn gap(a: u64, t: u64) -> u64
    requires { (a < 2 ^ 32) × (t < 2 ^ 32) }
    ensures { (result ≡ gap_of a t) × (result < 2 ^ 32) }
{
    if t <= a { a - t } else { t - a }
}

// 1 where a - t is negative: a number, as `over_of` is, since signs are added.
pub fn over(a: u64, t: u64) -> u32
    ensures { (result ≡ over_of a t) × (result ≤ 1) }
{
    u32::from(a < t)
}

// How many low digits of r are dropped, to keep 31.
pub fn dropped(r: u64) -> u32
    ensures { (result ≡ drop_of r) × (result ≤ 33) × (r / 2 ^ result < 2 ^ 31) }
{
    let z = u64::leading_zeros(r);
    if z < 33 { 33 - z } else { 0 }
}

// The bits of the float nearest to w·2^(s - 86).
pub fn pack(w: u64, s: u32) -> u32
    requires { s ≤ 60 }
    ensures { (result ≡ pack_of w s) × (result ≤ 1400000000) }
{
    if w == 0 {
        return 0;
    }
    let z = u64::leading_zeros(w);
    let n = w << z;
    let q = (n >> 40) + (n >> 39) % 2;
    (103 + s - z) * 0x80_0000 + q as u32
}

// The bits of the sine at r from its two sides, where `turned` counts what turns its sign over.
pub fn sine_at(turned: u32, r: u64, sides: Sides) -> u32
    requires { (turned ≤ 2) × (sides.plus < 2 ^ 32) × (sides.minus < 2 ^ 32) }
    ensures { (result ≡ sine_from turned r sides.plus sides.minus) × (result % 2147483648 ≤ 1400000000) }
{
    let s = dropped(r);
    let m = pack((r >> s) * gap(sides.plus, sides.minus), s);
    (turned + over(sides.plus, sides.minus)) % 2 * 0x8000_0000 + m
}
