// Lines and elliptical arcs: each call makes the segment that it is given, and asks it once.
ghost use Rattle.std.specs.Prelude.{◌≡◌};
ghost use Rattle.math.specs.Math.{point_of};
ghost use Rattle.arc.specs.Lines.{made_line_of};
ghost use Rattle.arc.specs.Arcs.{made_arc_of};
ghost use Rattle.c_answer.specs.Given.{Given};
ghost use Rattle.kihavute_curves.specs.Lone.{line_given, arc_given};
ghost use Rattle.kihavute_curves.specs.Arcs.{chord_of, ArcShape, ArcTable};

use crate::lone::{arc_lone, give_lone, line_lone};
use answers::{Refusal, Values};
use arc::EllipticalArc;
use ellipse::Chord;
use math::Point;
use table::Progress;

// What a line from (sx, sy) to (ex, ey) answers at a progress.
#[unsafe(no_mangle)]
pub extern "C" fn kihavute_line(
    sx: f32,
    sy: f32,
    ex: f32,
    ey: f32,
    progress: f32,
    answer: &mut [u64],
) -> u32
    ensures { Given (line_given (made_line_of (point_of sx sy) (point_of ex ey)) progress) answer.old result answer.new }
{
    match arc::line(Point { x: sx, y: sy }, Point { x: ex, y: ey }) {
        Ok(line) => give_lone(line_lone(line, Progress { value: progress }), answer),
        Err(refusal) => c_answer::refuse(refusal, answer),
    }
}

// ---- An arc from (sx, sy) to (ex, ey) with the radii rx and ry, its ellipse turned by so many degrees, and
// two flags, of which 0 is no and any other number yes: the larger of two arcs, and the one that
// turns towards growing angles.

fn made(
    sx: f32,
    sy: f32,
    rx: f32,
    ry: f32,
    rotation: f32,
    large: u32,
    sweep: u32,
    ex: f32,
    ey: f32,
) -> Result<EllipticalArc, Refusal>
    ensures { result ≡ made_arc_of (chord_of sx sy rx ry rotation large sweep ex ey) }
{
    arc::arc(Chord {
        start: Point { x: sx, y: sy },
        radii: Point { x: rx, y: ry },
        x_axis_rotation: rotation,
        large_arc: large != 0,
        sweep: sweep != 0,
        end: Point { x: ex, y: ey },
    })
}

// What it answers at a progress.
#[unsafe(no_mangle)]
pub extern "C" fn kihavute_arc(
    sx: f32,
    sy: f32,
    rx: f32,
    ry: f32,
    rotation: f32,
    large: u32,
    sweep: u32,
    ex: f32,
    ey: f32,
    progress: f32,
    answer: &mut [u64],
) -> u32
    ensures { Given (arc_given (made_arc_of (chord_of sx sy rx ry rotation large sweep ex ey)) progress) answer.old result answer.new }
{
    match made(sx, sy, rx, ry, rotation, large, sweep, ex, ey) {
        Ok(arc) => give_lone(arc_lone(arc, Progress { value: progress }), answer),
        Err(refusal) => c_answer::refuse(refusal, answer),
    }
}

// Its numbers: the ends, the centre, the radii, the rotation in degrees, the angle at which it
// starts and by how much it turns, in radians; and whether it fell back to a line.
#[unsafe(no_mangle)]
pub extern "C" fn kihavute_arc_shape(
    sx: f32,
    sy: f32,
    rx: f32,
    ry: f32,
    rotation: f32,
    large: u32,
    sweep: u32,
    ex: f32,
    ey: f32,
    out: &mut [f32],
    answer: &mut [u64],
) -> u32
    ensures { ArcShape (made_arc_of (chord_of sx sy rx ry rotation large sweep ex ey)) out.old answer.old result out.new answer.new }
{
    match made(sx, sy, rx, ry, rotation, large, sweep, ex, ey) {
        Ok(arc) => {
            let numbers = c_output::arc_numbers(arc.shape);
            let fell_back = usize::from(arc.line_fallback);
            c_output::fill(Ok(()), &numbers, Values::One(fell_back), out, answer)
        }
        Err(refusal) => c_output::fill(Err(refusal), &[], Values::Nothing, out, answer),
    }
}

// Its table: 32 running lengths and then their total, or nothing where it fell back to a line; and
// whether it did.
#[unsafe(no_mangle)]
pub extern "C" fn kihavute_arc_table(
    sx: f32,
    sy: f32,
    rx: f32,
    ry: f32,
    rotation: f32,
    large: u32,
    sweep: u32,
    ex: f32,
    ey: f32,
    out: &mut [f32],
    answer: &mut [u64],
) -> u32
    ensures { ArcTable (made_arc_of (chord_of sx sy rx ry rotation large sweep ex ey)) out.old answer.old result out.new answer.new }
{
    match made(sx, sy, rx, ry, rotation, large, sweep, ex, ey) {
        Ok(arc) => {
            if arc.line_fallback {
                return c_output::fill(Ok(()), &[], Values::One(1), out, answer);
            }
            let numbers = c_output::table_numbers(arc.table);
            c_output::fill(Ok(()), &numbers, Values::One(0), out, answer)
        }
        Err(refusal) => c_output::fill(Err(refusal), &[], Values::Nothing, out, answer),
    }
}
