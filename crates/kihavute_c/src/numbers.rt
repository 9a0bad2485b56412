// The exports of kihavute::numbers.
ghost use Rattle.std.specs.Prelude.{◌≡◌};
ghost use Rattle.floats.specs.Floats.{bits_of, min_of, max_of, clamp_of, clamp01_of};
ghost use Rattle.root.specs.Root.{sqrt_of};
ghost use Rattle.math.specs.Math.{lerp_of, deg_to_rad_of, rad_to_deg_of};
ghost use Rattle.kihavute.specs.Kept.{RootKept, RootSettled};

// The nearest float to the exact root, ties to even.
#[unsafe(no_mangle)]
pub extern "C" fn kihavute_sqrt(x: f32) -> f32
    ensures value { result ≡ sqrt_of x }
    ensures root_kept { RootKept x result }
    ensures root_settled { RootSettled x result }
{
    kihavute::numbers::kihavute_sqrt(x)
}

// x itself. Compiled, every NaN becomes 7FC00000.
#[unsafe(no_mangle)]
pub extern "C" fn kihavute_tidy(x: f32) -> f32
    ensures { result ≡ x }
{
    kihavute::numbers::kihavute_tidy(x)
}

#[unsafe(no_mangle)]
pub extern "C" fn kihavute_min(a: f32, b: f32) -> u32
    ensures { result ≡ bits_of (min_of a b) }
{
    kihavute::numbers::kihavute_min(a, b)
}

#[unsafe(no_mangle)]
pub extern "C" fn kihavute_max(a: f32, b: f32) -> u32
    ensures { result ≡ bits_of (max_of a b) }
{
    kihavute::numbers::kihavute_max(a, b)
}

#[unsafe(no_mangle)]
pub extern "C" fn kihavute_clamp(x: f32, low: f32, high: f32) -> u32
    ensures { result ≡ bits_of (clamp_of x low high) }
{
    kihavute::numbers::kihavute_clamp(x, low, high)
}

#[unsafe(no_mangle)]
pub extern "C" fn kihavute_clamp01(x: f32) -> u32
    ensures { result ≡ bits_of (clamp01_of x) }
{
    kihavute::numbers::kihavute_clamp01(x)
}

#[unsafe(no_mangle)]
pub extern "C" fn kihavute_lerp(a: f32, b: f32, t: f32) -> u32
    ensures { result ≡ bits_of (lerp_of a b t) }
{
    kihavute::numbers::kihavute_lerp(a, b, t)
}

#[unsafe(no_mangle)]
pub extern "C" fn kihavute_deg_to_rad(deg: f32) -> u32
    ensures { result ≡ bits_of (deg_to_rad_of deg) }
{
    kihavute::numbers::kihavute_deg_to_rad(deg)
}

#[unsafe(no_mangle)]
pub extern "C" fn kihavute_rad_to_deg(rad: f32) -> u32
    ensures { result ≡ bits_of (rad_to_deg_of rad) }
{
    kihavute::numbers::kihavute_rad_to_deg(rad)
}
