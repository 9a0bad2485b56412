// The exports of kihavute_curves::curve_tables.
ghost use Rattle.math.specs.Math.{point_of};
ghost use Rattle.bezier.specs.Quads.{made_quad_of};
ghost use Rattle.bezier.specs.Cubics.{made_cubic_of};
ghost use Rattle.kihavute_curves.specs.CurveTables.{QuadTable, CubicTable};

// The table of a quad from (sx, sy) to (ex, ey) with the control (cx, cy).
#[unsafe(no_mangle)]
pub extern "C" fn kihavute_quad_table(
    sx: f32,
    sy: f32,
    cx: f32,
    cy: f32,
    ex: f32,
    ey: f32,
    out: &mut [f32],
    answer: &mut [u64],
) -> u32
    ensures { QuadTable (made_quad_of (point_of sx sy) (point_of cx cy) (point_of ex ey)) out.old answer.old result out.new answer.new }
{
    kihavute_curves::curve_tables::kihavute_quad_table(sx, sy, cx, cy, ex, ey, out, answer)
}

// The table of a cubic from (sx, sy) to (ex, ey) with the controls (ax, ay) and (bx, by).
#[unsafe(no_mangle)]
pub extern "C" fn kihavute_cubic_table(
    sx: f32,
    sy: f32,
    ax: f32,
    ay: f32,
    bx: f32,
    by: f32,
    ex: f32,
    ey: f32,
    out: &mut [f32],
    answer: &mut [u64],
) -> u32
    ensures { CubicTable (made_cubic_of (point_of sx sy) (point_of ax ay) (point_of bx by) (point_of ex ey)) out.old answer.old result out.new answer.new }
{
    kihavute_curves::curve_tables::kihavute_cubic_table(sx, sy, ax, ay, bx, by, ex, ey, out, answer)
}
