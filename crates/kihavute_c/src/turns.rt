// The exports of kihavute::turns.
ghost use Rattle.std.specs.Prelude.{◌≡◌};
ghost use Rattle.floats.specs.Floats.{bits_of};
ghost use Rattle.trig_rule.specs.Steps.{sine_of, cosine_of};
ghost use Rattle.atan2_rule.specs.Steps.{atan2_of};
ghost use Rattle.math.specs.Math.{point_of};
ghost use Rattle.angles.specs.Angles.{rotation_deg_of, angle_between_of};
ghost use Rattle.kihavute.specs.Pair.{pair_of};
ghost use Rattle.kihavute.specs.Kept.{Atan2Kept, Atan2Settled, CosineKept, SineKept};

// The sine of an angle in radians of at most 64 in size, and NaN for any other: the quotient of two
// constants, and so tidy.
#[unsafe(no_mangle)]
pub extern "C" fn kihavute_sin(angle: f32) -> f32
    ensures value { result ≡ sine_of angle }
    ensures sine_kept { SineKept angle result }
{
    kihavute::turns::kihavute_sin(angle)
}

// The cosine of an angle in radians of at most 64 in size, and NaN for any other, tidy too.
#[unsafe(no_mangle)]
pub extern "C" fn kihavute_cos(angle: f32) -> f32
    ensures value { result ≡ cosine_of angle }
    ensures cosine_kept { CosineKept angle result }
{
    kihavute::turns::kihavute_cos(angle)
}

// Both at once, as the point of the unit circle: the cosine is x, the sine y.
#[unsafe(no_mangle)]
pub extern "C" fn kihavute_sin_cos(angle: f32) -> u64
    ensures value { result ≡ pair_of (point_of (cosine_of angle) (sine_of angle)) }
    ensures sine_kept { SineKept angle (sine_of angle) × CosineKept angle (cosine_of angle) }
{
    kihavute::turns::kihavute_sin_cos(angle)
}

// The angle of the point (x, y) in radians.
#[unsafe(no_mangle)]
pub extern "C" fn kihavute_atan2(y: f32, x: f32) -> f32
    ensures value { result ≡ atan2_of y x }
    ensures atan2_kept { Atan2Kept y x result }
    ensures atan2_settled { Atan2Settled y x result }
{
    kihavute::turns::kihavute_atan2(y, x)
}

// The heading of a tangent in degrees.
#[unsafe(no_mangle)]
pub extern "C" fn kihavute_rotation_deg(x: f32, y: f32) -> u32
    ensures { result ≡ bits_of (rotation_deg_of (point_of x y)) }
{
    kihavute::turns::kihavute_rotation_deg(x, y)
}

// The angle from (ux, uy) to (vx, vy) in radians.
#[unsafe(no_mangle)]
pub extern "C" fn kihavute_angle_between(ux: f32, uy: f32, vx: f32, vy: f32) -> u32
    ensures { result ≡ bits_of (angle_between_of (point_of ux uy) (point_of vx vy)) }
{
    kihavute::turns::kihavute_angle_between(ux, uy, vx, vy)
}
