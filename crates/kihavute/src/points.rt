// Points: two floats in; out comes x's pattern in the low half and y's in the high half.
ghost use Rattle.std.specs.Prelude.{◌≡◌};
ghost use Rattle.floats.specs.Floats.{bits_of};
ghost use Rattle.math.specs.Math.{point_of, add_of, sub_of, scale_of, dot_of, length_of, distance_of, normalize_of, lerp_point_of};
ghost use Rattle.kihavute.specs.Kept.{LengthBits};
ghost use Rattle.kihavute.specs.Pair.{pair_of};

use math::Point;

pub(crate) fn pair(p: Point) -> u64
    ensures { result ≡ pair_of p }
{
    let x = p.x;
    let y = p.y;
    (floats::bits(y) as u64) * 0x1_0000_0000 + floats::bits(x) as u64
}

#[unsafe(no_mangle)]
pub extern "C" fn kihavute_add(ax: f32, ay: f32, bx: f32, by: f32) -> u64
    ensures { result ≡ pair_of (add_of (point_of ax ay) (point_of bx by)) }
{
    pair(math::add(Point { x: ax, y: ay }, Point { x: bx, y: by }))
}

#[unsafe(no_mangle)]
pub extern "C" fn kihavute_sub(ax: f32, ay: f32, bx: f32, by: f32) -> u64
    ensures { result ≡ pair_of (sub_of (point_of ax ay) (point_of bx by)) }
{
    pair(math::sub(Point { x: ax, y: ay }, Point { x: bx, y: by }))
}

#[unsafe(no_mangle)]
pub extern "C" fn kihavute_scale(x: f32, y: f32, factor: f32) -> u64
    ensures { result ≡ pair_of (scale_of (point_of x y) factor) }
{
    pair(math::scale(Point { x, y }, factor))
}

#[unsafe(no_mangle)]
pub extern "C" fn kihavute_dot(ax: f32, ay: f32, bx: f32, by: f32) -> u32
    ensures { result ≡ bits_of (dot_of (point_of ax ay) (point_of bx by)) }
{
    floats::bits(math::dot(Point { x: ax, y: ay }, Point { x: bx, y: by }))
}

#[unsafe(no_mangle)]
pub extern "C" fn kihavute_length(x: f32, y: f32) -> u32
    ensures value { result ≡ bits_of (length_of (point_of x y)) }
    ensures length_bits { LengthBits x y result }
{
    floats::bits(math::length(Point { x, y }))
}

#[unsafe(no_mangle)]
pub extern "C" fn kihavute_distance(ax: f32, ay: f32, bx: f32, by: f32) -> u32
    ensures { result ≡ bits_of (distance_of (point_of ax ay) (point_of bx by)) }
{
    floats::bits(math::distance(Point { x: ax, y: ay }, Point { x: bx, y: by }))
}

#[unsafe(no_mangle)]
pub extern "C" fn kihavute_normalize(x: f32, y: f32) -> u64
    ensures { result ≡ pair_of (normalize_of (point_of x y)) }
{
    pair(math::normalize(Point { x, y }))
}

#[unsafe(no_mangle)]
pub extern "C" fn kihavute_lerp_point(ax: f32, ay: f32, bx: f32, by: f32, t: f32) -> u64
    ensures { result ≡ pair_of (lerp_point_of (point_of ax ay) (point_of bx by) t) }
{
    pair(math::lerp_point(Point { x: ax, y: ay }, Point { x: bx, y: by }, t))
}
