// The exports of kihavute_curves::curves.
ghost use Rattle.math.specs.Math.{point_of};
ghost use Rattle.bezier.specs.Quads.{made_quad_of};
ghost use Rattle.bezier.specs.Cubics.{made_cubic_of};
ghost use Rattle.c_answer.specs.Given.{Given};
ghost use Rattle.kihavute_curves.specs.Lone.{quad_given, cubic_given};

// What a quad from (sx, sy) to (ex, ey) with the control (cx, cy) answers at a progress.
#[unsafe(no_mangle)]
pub extern "C" fn kihavute_quad(
    sx: f32,
    sy: f32,
    cx: f32,
    cy: f32,
    ex: f32,
    ey: f32,
    progress: f32,
    answer: &mut [u64],
) -> u32
    ensures { Given (quad_given (made_quad_of (point_of sx sy) (point_of cx cy) (point_of ex ey)) progress) answer.old result answer.new }
{
    kihavute_curves::curves::kihavute_quad(sx, sy, cx, cy, ex, ey, progress, answer)
}

// What a cubic from (sx, sy) to (ex, ey) with the controls (ax, ay) and (bx, by) answers at a progress.
#[unsafe(no_mangle)]
pub extern "C" fn kihavute_cubic(
    sx: f32,
    sy: f32,
    ax: f32,
    ay: f32,
    bx: f32,
    by: f32,
    ex: f32,
    ey: f32,
    progress: f32,
    answer: &mut [u64],
) -> u32
    ensures { Given (cubic_given (made_cubic_of (point_of sx sy) (point_of ax ay) (point_of bx by) (point_of ex ey)) progress) answer.old result answer.new }
{
    kihavute_curves::curves::kihavute_cubic(sx, sy, ax, ay, bx, by, ex, ey, progress, answer)
}
