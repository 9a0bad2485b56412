// The product, the digits that an f32 keeps of it, and the rounding by the rest.
ghost use Rattle.std.specs.Prelude.{◌≡◌, ◌⊎◌, ℕ, ◌+◌, ◌-◌, ◌*◌, ◌^◌, ◌≤◌, ◌<◌};
ghost use Rattle.decimal_tens.specs.Tens.{places};
ghost use Rattle.decimal_product.specs.Near.{High, Kept, Cuts, Settles, Nearest};

use decimal_tens::tens;

#[derive(Clone, Copy, Debug, PartialEq, Eq)]
pub enum Near {
    // The bits of the nearest f32, but for the sign.
    Bits(u64),
    // The number lies between m and m + 1 steps of 2^k smallest values, and near their middle.
    Between(u64, u64),
}

// The product of x and p from its 64th binary digit on, or one or two less: what the lower halves
// carry is left out.
fn high(x: u64, p: u64) -> u64
    requires { p < 2 ^ 60 }
    ensures { High x p result }
{
    let x1 = x / 4294967296;
    let x0 = x % 4294967296;
    let p1 = p / 4294967296;
    let p0 = p % 4294967296;
    x1 * p1 + x1 * p0 / 4294967296 + x0 * p1 / 4294967296
}

// How many of the 59 or 60 binary digits of a product are past the 24 of an f32.
fn past_24(product: u64) -> u64
    requires { (2 ^ 58 ≤ product) × (product < 2 ^ 60) }
    ensures { Kept product result }
{
    if product < 576460752303423488 { 35 } else { 36 }
}

// 1 above the half, else 0: a number and no branch, since nothing foretells which.
fn is_above(rest: u64, half: u64) -> u64
    requires { (rest < 2 ^ 62) × (half < 2 ^ 62) }
    ensures { (result ≤ 1) × (rest ≤ half + result * 2 ^ 62) × (half + result * 2 ^ 62 < rest + 2 ^ 62) }
{
    if half < rest { 1 } else { 0 }
}

// The product cut by its last binary digits, and rounded by them: what they are short of the number
// is less than 5.
fn cut(product: u64, dropped: u64, k: u64) -> Near
    requires { (35 ≤ dropped) × (dropped ≤ 61) × (k ≤ 253) × (product < 2 ^ (24 + dropped)) × ((2 ^ (23 + dropped) ≤ product) ⊎ (k ≡ 0)) }
    ensures { Cuts product dropped k result }
{
    let m = product >> dropped;
    let rest = product - (m << dropped);
    let half = 1u64 << (dropped - 1);
    let above = is_above(rest, half);
    let reaches = is_above(rest + 5, half);
    if above < reaches {
        return Near::Between(m, k);
    }
    Near::Bits(k * 8388608 + m + above)
}

// The answer to a product that was moved up by so many binary digits. Below 2^-126 more digits are
// cut, as the smallest step is 2^-149.
fn settle(product: u64, moved: u64, place: u64) -> Near
    requires { (2 ^ 58 ≤ product) × (product < 2 ^ 60) × (moved < 64) × (place < places) }
    ensures { Settles product moved place result }
{
    let height = (6803 * place + 832) / 2048;
    let depth = moved + 59;
    let usual = past_24(product);
    if depth <= height + usual {
        let k = height + usual - depth;
        if 253 < k {
            return Near::Bits(2139095040);
        }
        return cut(product, usual, k);
    }
    let dropped = depth - height;
    if 61 < dropped {
        return Near::Bits(0);
    }
    cut(product, dropped, 0)
}

// The f32 nearest to every number that has the leading digits w before 10^(place - 64).
pub fn nearest(w: u64, place: u64) -> Near
    requires { (0 < w) × (place < places) }
    ensures { Nearest w place result }
{
    let moved = u64::leading_zeros(w);
    let product = high(w << moved, tens(place));
    settle(product, moved as u64, place)
}
