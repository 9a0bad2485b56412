// The exports of kihavute_curves::arcs.
ghost use Rattle.math.specs.Math.{point_of};
ghost use Rattle.arc.specs.Lines.{made_line_of};
ghost use Rattle.arc.specs.Arcs.{made_arc_of};
ghost use Rattle.c_answer.specs.Given.{Given};
ghost use Rattle.kihavute_curves.specs.Lone.{line_given, arc_given};
ghost use Rattle.kihavute_curves.specs.Arcs.{chord_of, ArcShape, ArcTable};

// What a line from (sx, sy) to (ex, ey) answers at a progress.
#[unsafe(no_mangle)]
pub extern "C" fn kihavute_line(
    sx: f32,
    sy: f32,
    ex: f32,
    ey: f32,
    progress: f32,
    answer: &mut [u64],
) -> u32
    ensures { Given (line_given (made_line_of (point_of sx sy) (point_of ex ey)) progress) answer.old result answer.new }
{
    kihavute_curves::arcs::kihavute_line(sx, sy, ex, ey, progress, answer)
}

// What it answers at a progress.
#[unsafe(no_mangle)]
pub extern "C" fn kihavute_arc(
    sx: f32,
    sy: f32,
    rx: f32,
    ry: f32,
    rotation: f32,
    large: u32,
    sweep: u32,
    ex: f32,
    ey: f32,
    progress: f32,
    answer: &mut [u64],
) -> u32
    ensures { Given (arc_given (made_arc_of (chord_of sx sy rx ry rotation large sweep ex ey)) progress) answer.old result answer.new }
{
    kihavute_curves::arcs::kihavute_arc(
        sx, sy, rx, ry, rotation, large, sweep, ex, ey, progress, answer,
    )
}

// Its numbers: the ends, the centre, the radii, the rotation in degrees, the angle at which it
// starts and by how much it turns, in radians; and whether it fell back to a line.
#[unsafe(no_mangle)]
pub extern "C" fn kihavute_arc_shape(
    sx: f32,
    sy: f32,
    rx: f32,
    ry: f32,
    rotation: f32,
    large: u32,
    sweep: u32,
    ex: f32,
    ey: f32,
    out: &mut [f32],
    answer: &mut [u64],
) -> u32
    ensures { ArcShape (made_arc_of (chord_of sx sy rx ry rotation large sweep ex ey)) out.old answer.old result out.new answer.new }
{
    kihavute_curves::arcs::kihavute_arc_shape(
        sx, sy, rx, ry, rotation, large, sweep, ex, ey, out, answer,
    )
}

// Its table: 32 running lengths and then their total, or nothing where it fell back to a line; and
// whether it did.
#[unsafe(no_mangle)]
pub extern "C" fn kihavute_arc_table(
    sx: f32,
    sy: f32,
    rx: f32,
    ry: f32,
    rotation: f32,
    large: u32,
    sweep: u32,
    ex: f32,
    ey: f32,
    out: &mut [f32],
    answer: &mut [u64],
) -> u32
    ensures { ArcTable (made_arc_of (chord_of sx sy rx ry rotation large sweep ex ey)) out.old answer.old result out.new answer.new }
{
    kihavute_curves::arcs::kihavute_arc_table(
        sx, sy, rx, ry, rotation, large, sweep, ex, ey, out, answer,
    )
}
