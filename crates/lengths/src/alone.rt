// One length that is waited for. The products of a step do not wait for one another, a table saves a step, and what is rare is asked by
// branches, which wait for nothing.

ghost use Rattle.std.specs.Prelude.{◌≡◌, ◌*◌, ◌^◌, ◌≤◌, ◌<◌, IfSome, T};
ghost use Rattle.floats.specs.Kinds.{upward};
ghost use Rattle.lengths.specs.Length.{length_of};

use crate::passes::{LEAST, MOST, root_or_zero};

// What half a pattern is taken from, by the last digit of its exponent and the first six of its fraction, as tools/length-table prints it.
static START: [u64; 128] = [
    0x5FD6_9A3A_0000_0000,
    0x5FD6_8E02_0000_0000,
    0x5FD6_82CA_0000_0000,
    0x5FD6_7889_0000_0000,
    0x5FD6_6F36_0000_0000,
    0x5FD6_66C8_0000_0000,
    0x5FD6_5F37_0000_0000,
    0x5FD6_587C_0000_0000,
    0x5FD6_528E_0000_0000,
    0x5FD6_4D67_0000_0000,
    0x5FD6_4900_0000_0000,
    0x5FD6_4553_0000_0000,
    0x5FD6_425A_0000_0000,
    0x5FD6_400E_0000_0000,
    0x5FD6_3E6B_0000_0000,
    0x5FD6_3D6B_0000_0000,
    0x5FD6_3D03_0000_0000,
    0x5FD6_3D3F_0000_0000,
    0x5FD6_3E0A_0000_0000,
    0x5FD6_3F66_0000_0000,
    0x5FD6_414C_0000_0000,
    0x5FD6_43BB_0000_0000,
    0x5FD6_46AD_0000_0000,
    0x5FD6_4A1F_0000_0000,
    0x5FD6_4E0D_0000_0000,
    0x5FD6_5274_0000_0000,
    0x5FD6_5750_0000_0000,
    0x5FD6_5C9F_0000_0000,
    0x5FD6_625D_0000_0000,
    0x5FD6_6886_0000_0000,
    0x5FD6_6F19_0000_0000,
    0x5FD6_7613_0000_0000,
    0x5FD6_7D71_0000_0000,
    0x5FD6_852F_0000_0000,
    0x5FD6_8D4D_0000_0000,
    0x5FD6_95C7_0000_0000,
    0x5FD6_9E9B_0000_0000,
    0x5FD6_A7C7_0000_0000,
    0x5FD6_B149_0000_0000,
    0x5FD6_BB1E_0000_0000,
    0x5FD6_C545_0000_0000,
    0x5FD6_CFBC_0000_0000,
    0x5FD6_DA80_0000_0000,
    0x5FD6_E591_0000_0000,
    0x5FD6_F0EC_0000_0000,
    0x5FD6_FC8F_0000_0000,
    0x5FD7_0879_0000_0000,
    0x5FD7_14A9_0000_0000,
    0x5FD7_211C_0000_0000,
    0x5FD7_2DD2_0000_0000,
    0x5FD7_3AC9_0000_0000,
    0x5FD7_47FF_0000_0000,
    0x5FD7_5573_0000_0000,
    0x5FD7_6324_0000_0000,
    0x5FD7_7110_0000_0000,
    0x5FD7_7F36_0000_0000,
    0x5FD7_8D96_0000_0000,
    0x5FD7_9C2D_0000_0000,
    0x5FD7_AAFB_0000_0000,
    0x5FD7_B9FF_0000_0000,
    0x5FD7_C937_0000_0000,
    0x5FD7_D8A2_0000_0000,
    0x5FD7_E840_0000_0000,
    0x5FD7_F569_0000_0000,
    0x5FD7_F04F_0000_0000,
    0x5FD7_D1C6_0000_0000,
    0x5FD7_B4A8_0000_0000,
    0x5FD7_98E6_0000_0000,
    0x5FD7_7E75_0000_0000,
    0x5FD7_6548_0000_0000,
    0x5FD7_4D54_0000_0000,
    0x5FD7_368D_0000_0000,
    0x5FD7_20E9_0000_0000,
    0x5FD7_0C5F_0000_0000,
    0x5FD6_F8E4_0000_0000,
    0x5FD6_E670_0000_0000,
    0x5FD6_D4FA_0000_0000,
    0x5FD6_C47A_0000_0000,
    0x5FD6_B4E8_0000_0000,
    0x5FD6_A63D_0000_0000,
    0x5FD6_9871_0000_0000,
    0x5FD6_8B7D_0000_0000,
    0x5FD6_7F5B_0000_0000,
    0x5FD6_7405_0000_0000,
    0x5FD6_6974_0000_0000,
    0x5FD6_5FA3_0000_0000,
    0x5FD6_568C_0000_0000,
    0x5FD6_4E2A_0000_0000,
    0x5FD6_4678_0000_0000,
    0x5FD6_3F71_0000_0000,
    0x5FD6_390F_0000_0000,
    0x5FD6_334F_0000_0000,
    0x5FD6_2E2D_0000_0000,
    0x5FD6_29A3_0000_0000,
    0x5FD6_25AE_0000_0000,
    0x5FD6_224A_0000_0000,
    0x5FD6_1F73_0000_0000,
    0x5FD6_1D26_0000_0000,
    0x5FD6_1B5F_0000_0000,
    0x5FD6_1A1B_0000_0000,
    0x5FD6_1956_0000_0000,
    0x5FD6_1908_0000_0000,
    0x5FD6_193E_0000_0000,
    0x5FD6_19E5_0000_0000,
    0x5FD6_1AFF_0000_0000,
    0x5FD6_1C8A_0000_0000,
    0x5FD6_1E83_0000_0000,
    0x5FD6_20E8_0000_0000,
    0x5FD6_23B5_0000_0000,
    0x5FD6_26EA_0000_0000,
    0x5FD6_2A82_0000_0000,
    0x5FD6_2E7D_0000_0000,
    0x5FD6_32D8_0000_0000,
    0x5FD6_3790_0000_0000,
    0x5FD6_3CA4_0000_0000,
    0x5FD6_4211_0000_0000,
    0x5FD6_47D7_0000_0000,
    0x5FD6_4DF2_0000_0000,
    0x5FD6_5462_0000_0000,
    0x5FD6_5B23_0000_0000,
    0x5FD6_6236_0000_0000,
    0x5FD6_6997_0000_0000,
    0x5FD6_7146_0000_0000,
    0x5FD6_7940_0000_0000,
    0x5FD6_8185_0000_0000,
    0x5FD6_8A12_0000_0000,
    0x5FD6_92E7_0000_0000,
    0x5FD6_9C02_0000_0000,
];

// A number near the root of s, by Newton's steps for 1 / (2 * root): the table gives that within 0.2%, the first step within 3e-6, and the
// last gives the root within 1.2e-11. Nothing is promised.
fn guess(s: f64) -> f64
    requires { T (upward s) }
{
    let twice = s + s;
    let square = twice * twice;
    let bits = f64::to_bits(s);
    let z0 = f64::from_bits(START[(bits / 0x4000_0000_0000 % 128) as usize] - bits / 2);
    let z1 = 1.50000275 * z0 - (twice * z0) * (z0 * z0);
    (1.5 * twice) * z1 - (square * z1) * (z1 * z1)
}

// The length of (x, y), where the guess settles it.
pub(crate) fn judged(x: f32, y: f32) -> Option<f32>
    ensures { IfSome result (λ length. length ≡ length_of x y) }
{
    if x != x || y != y {
        return None;
    }
    let a = x as f64;
    let b = y as f64;
    let s = a * a + b * b;
    let g = guess(s);
    if g > LEAST && g < MOST {
        let root = root_or_zero(s, g);
        if root != 0.0 {
            return Some(root);
        }
    }
    None
}
