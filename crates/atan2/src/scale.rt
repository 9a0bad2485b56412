// y and x on one scale, from their bits as f64 without the sign.
ghost use Rattle.std.specs.Prelude.{◌≡◌, ◌+◌, ◌-◌, ◌*◌, ◌/◌, ◌%◌, ◌^◌, ◌≤◌, ◌<◌};
ghost use Rattle.atan2_rule.specs.Steps.{field, top_of, part_of};

// The larger exponent's field of the two.
pub(crate) fn larger(a: u64, b: u64) -> u64
    requires { (a < 2 ^ 63) × (b < 2 ^ 63) }
    ensures { (result ≡ top_of a b) × (field a ≤ result) × (field b ≤ result) × (result < 2048) }
{
    let e = a >> 52;
    let f = b >> 52;
    if e < f { f } else { e }
}

// The 30 leading digits of the number with the bits b, moved down where its field is below `top`.
pub(crate) fn part(b: u64, top: u64) -> u64
    requires { (field b ≤ top) × (top < 2048) }
    ensures { (result ≡ part_of b top) × (result < 2 ^ 30) }
{
    let d = top - (b >> 52);
    if d < 30 {
        ((b % 0x10_0000_0000_0000 + 0x10_0000_0000_0000) >> 23) >> d
    } else {
        0
    }
}
