// The exports of kihavute::points.
ghost use Rattle.std.specs.Prelude.{◌≡◌};
ghost use Rattle.floats.specs.Floats.{bits_of};
ghost use Rattle.math.specs.Math.{point_of, add_of, sub_of, scale_of, dot_of, length_of, distance_of, normalize_of, lerp_point_of};
ghost use Rattle.kihavute.specs.Kept.{LengthBits};
ghost use Rattle.kihavute.specs.Pair.{pair_of};

#[unsafe(no_mangle)]
pub extern "C" fn kihavute_add(ax: f32, ay: f32, bx: f32, by: f32) -> u64
    ensures { result ≡ pair_of (add_of (point_of ax ay) (point_of bx by)) }
{
    kihavute::points::kihavute_add(ax, ay, bx, by)
}

#[unsafe(no_mangle)]
pub extern "C" fn kihavute_sub(ax: f32, ay: f32, bx: f32, by: f32) -> u64
    ensures { result ≡ pair_of (sub_of (point_of ax ay) (point_of bx by)) }
{
    kihavute::points::kihavute_sub(ax, ay, bx, by)
}

#[unsafe(no_mangle)]
pub extern "C" fn kihavute_scale(x: f32, y: f32, factor: f32) -> u64
    ensures { result ≡ pair_of (scale_of (point_of x y) factor) }
{
    kihavute::points::kihavute_scale(x, y, factor)
}

#[unsafe(no_mangle)]
pub extern "C" fn kihavute_dot(ax: f32, ay: f32, bx: f32, by: f32) -> u32
    ensures { result ≡ bits_of (dot_of (point_of ax ay) (point_of bx by)) }
{
    kihavute::points::kihavute_dot(ax, ay, bx, by)
}

#[unsafe(no_mangle)]
pub extern "C" fn kihavute_length(x: f32, y: f32) -> u32
    ensures value { result ≡ bits_of (length_of (point_of x y)) }
    ensures length_bits { LengthBits x y result }
{
    kihavute::points::kihavute_length(x, y)
}

#[unsafe(no_mangle)]
pub extern "C" fn kihavute_distance(ax: f32, ay: f32, bx: f32, by: f32) -> u32
    ensures { result ≡ bits_of (distance_of (point_of ax ay) (point_of bx by)) }
{
    kihavute::points::kihavute_distance(ax, ay, bx, by)
}

#[unsafe(no_mangle)]
pub extern "C" fn kihavute_normalize(x: f32, y: f32) -> u64
    ensures { result ≡ pair_of (normalize_of (point_of x y)) }
{
    kihavute::points::kihavute_normalize(x, y)
}

#[unsafe(no_mangle)]
pub extern "C" fn kihavute_lerp_point(ax: f32, ay: f32, bx: f32, by: f32, t: f32) -> u64
    ensures { result ≡ pair_of (lerp_point_of (point_of ax ay) (point_of bx by) t) }
{
    kihavute::points::kihavute_lerp_point(ax, ay, bx, by, t)
}
