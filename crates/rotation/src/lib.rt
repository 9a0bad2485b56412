// The rotation of an arc's ellipse in degrees: what is left of its full turns, and that in radians. Any f32 is taken.
#![tactic(auto)]

ghost use Rattle.std.specs.Prelude.{◌≡◌, false, ◌*◌, ◌^◌, ◌%◌, ◌<◌};
ghost use Rattle.std.specs.Float.{binary32};
ghost use Rattle.std.specs.Float.Ieee.{round};
ghost use Rattle.floats.specs.Patterns.{infinity_bits};
ghost use Rattle.rotation.specs.Rotation.{full_turn, units_at, reduced_of, phi_of};

// m·2^k times 8 degrees without full turns, which are 45 times 8 degrees. 2^12 is 1 more than a multiple of 45, so that only the
// rest of k counts.
fn eights(m: u32, k: u32) -> u32
    ensures { result ≡ m * 2 ^ k % 45 }
{
    (m % 45 << k % 12) % 45
}

// What is left of a size beyond 360, given by its bits: its 24 digits count 2^(e - 150), and 360 is 45·2^(153 - e) of these.
// Both factors and their product are f32 exactly.
fn rest(a: u32) -> f32
    requires { (0x43b4_0000 < a) × (a < infinity_bits) }
    ensures { result ≡ round binary32 false (units_at a % full_turn) (2 ^ 149) }
{
    let m = a % 0x80_0000 + 0x80_0000;
    let e = a / 0x80_0000;
    if e < 153 {
        let left = m % (45u32 << (153 - e));
        return left as f32 * f32::from_bits((e - 23) * 0x80_0000);
    }
    (eights(m, e - 153) * 8) as f32
}

// What is left of a rotation in full turns of 360 degrees, with its sign and without rounding. A rotation of at most 360 in size
// stays, 360 itself too, and so do infinity and NaN.
pub fn reduced(degrees: f32) -> f32
    ensures { result ≡ reduced_of degrees }
{
    if degrees != degrees {
        return degrees;
    }
    let b = f32::to_bits(degrees);
    let a = b % 0x8000_0000;
    if a <= 0x43b4_0000 {
        return degrees;
    }
    if 0x7f80_0000 <= a {
        return degrees;
    }
    if b < 0x8000_0000 { rest(a) } else { -rest(a) }
}

// The rotation in radians, as its sine and cosine are taken: full turns go first.
pub fn phi(degrees: f32) -> f32
    ensures { result ≡ phi_of degrees }
{
    math::deg_to_rad(reduced(degrees))
}
