// Quads and cubics: each call makes the curve of the points that it is given, and asks it once.
ghost use Rattle.math.specs.Math.{point_of};
ghost use Rattle.bezier.specs.Quads.{made_quad_of};
ghost use Rattle.bezier.specs.Cubics.{made_cubic_of};
ghost use Rattle.c_answer.specs.Given.{Given};
ghost use Rattle.kihavute_curves.specs.Lone.{quad_given, cubic_given};

use crate::lone::{cubic_lone, give_lone, quad_lone};
use math::Point;
use table::Progress;

// What a quad from (sx, sy) to (ex, ey) with the control (cx, cy) answers at a progress.
#[unsafe(no_mangle)]
pub extern "C" fn kihavute_quad(
    sx: f32,
    sy: f32,
    cx: f32,
    cy: f32,
    ex: f32,
    ey: f32,
    progress: f32,
    answer: &mut [u64],
) -> u32
    ensures { Given (quad_given (made_quad_of (point_of sx sy) (point_of cx cy) (point_of ex ey)) progress) answer.old result answer.new }
{
    match bezier::quad(
        Point { x: sx, y: sy },
        Point { x: cx, y: cy },
        Point { x: ex, y: ey },
    ) {
        Ok(curve) => give_lone(quad_lone(curve, Progress { value: progress }), answer),
        Err(refusal) => c_answer::refuse(refusal, answer),
    }
}

// What a cubic from (sx, sy) to (ex, ey) with the controls (ax, ay) and (bx, by) answers at a progress.
#[unsafe(no_mangle)]
pub extern "C" fn kihavute_cubic(
    sx: f32,
    sy: f32,
    ax: f32,
    ay: f32,
    bx: f32,
    by: f32,
    ex: f32,
    ey: f32,
    progress: f32,
    answer: &mut [u64],
) -> u32
    ensures { Given (cubic_given (made_cubic_of (point_of sx sy) (point_of ax ay) (point_of bx by) (point_of ex ey)) progress) answer.old result answer.new }
{
    match bezier::cubic(
        Point { x: sx, y: sy },
        Point { x: ax, y: ay },
        Point { x: bx, y: by },
        Point { x: ex, y: ey },
    ) {
        Ok(curve) => give_lone(cubic_lone(curve, Progress { value: progress }), answer),
        Err(refusal) => c_answer::refuse(refusal, answer),
    }
}
