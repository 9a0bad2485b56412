// The tables of quads and cubics: each call makes the curve of the points that it is given, and puts
// its 32 running lengths and then their total into a lent output.
ghost use Rattle.math.specs.Math.{point_of};
ghost use Rattle.bezier.specs.Quads.{made_quad_of};
ghost use Rattle.bezier.specs.Cubics.{made_cubic_of};
ghost use Rattle.kihavute_curves.specs.CurveTables.{QuadTable, CubicTable};

use answers::Values;
use math::Point;

// The table of a quad from (sx, sy) to (ex, ey) with the control (cx, cy).
#[unsafe(no_mangle)]
pub extern "C" fn kihavute_quad_table(
    sx: f32,
    sy: f32,
    cx: f32,
    cy: f32,
    ex: f32,
    ey: f32,
    out: &mut [f32],
    answer: &mut [u64],
) -> u32
    ensures { QuadTable (made_quad_of (point_of sx sy) (point_of cx cy) (point_of ex ey)) out.old answer.old result out.new answer.new }
{
    match bezier::quad(
        Point { x: sx, y: sy },
        Point { x: cx, y: cy },
        Point { x: ex, y: ey },
    ) {
        Ok(curve) => {
            let numbers = c_output::table_numbers(curve.table);
            c_output::fill(Ok(()), &numbers, Values::Nothing, out, answer)
        }
        Err(refusal) => c_output::fill(Err(refusal), &[], Values::Nothing, out, answer),
    }
}

// The table of a cubic from (sx, sy) to (ex, ey) with the controls (ax, ay) and (bx, by).
#[unsafe(no_mangle)]
pub extern "C" fn kihavute_cubic_table(
    sx: f32,
    sy: f32,
    ax: f32,
    ay: f32,
    bx: f32,
    by: f32,
    ex: f32,
    ey: f32,
    out: &mut [f32],
    answer: &mut [u64],
) -> u32
    ensures { CubicTable (made_cubic_of (point_of sx sy) (point_of ax ay) (point_of bx by) (point_of ex ey)) out.old answer.old result out.new answer.new }
{
    match bezier::cubic(
        Point { x: sx, y: sy },
        Point { x: ax, y: ay },
        Point { x: bx, y: by },
        Point { x: ex, y: ey },
    ) {
        Ok(curve) => {
            let numbers = c_output::table_numbers(curve.table);
            c_output::fill(Ok(()), &numbers, Values::Nothing, out, answer)
        }
        Err(refusal) => c_output::fill(Err(refusal), &[], Values::Nothing, out, answer),
    }
}
