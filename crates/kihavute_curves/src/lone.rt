// What a lone segment answers at a progress, and how it leaves through C. Each kind looks its raw parameter up and takes all else there.
ghost use Rattle.std.specs.Prelude.{◌≡◌, false, T};
ghost use Rattle.table.specs.Sound.{table_is_sound};
ghost use Rattle.c_answer.specs.Given.{Given};
ghost use Rattle.kihavute_curves.specs.Lone.{lone_given, quad_lone, cubic_lone, line_lone, arc_lone};

use arc::{EllipticalArc, LineSegment};
use bezier::{CubicBezierCurve, QuadBezier};
use floats::bits;
use math::Point;
use table::inner::{raw_parameter, raw_parameter_in};
use table::{Progress, RawParameter, number_of};

// The position and the length in path units; the tangent with the length 1, or (0, 0) where nothing tells; the raw parameter at which
// position and tangent are taken.
#[derive(Clone, Copy)]
pub struct Lone {
    pub position: Point,
    pub tangent: Point,
    pub raw: RawParameter,
    pub length: f32,
}

// The bits of the position, of the tangent, of the raw parameter and of the length.
pub(crate) fn give_lone(lone: Lone, answer: &mut [u64]) -> u32
    ensures { Given (lone_given lone) answer.old result answer.new }
{
    c_answer::accept_six(
        u64::from(bits(lone.position.x)),
        u64::from(bits(lone.position.y)),
        u64::from(bits(lone.tangent.x)),
        u64::from(bits(lone.tangent.y)),
        u64::from(bits(number_of(lone.raw))),
        u64::from(bits(lone.length)),
        answer,
    )
}

// A quad.
pub(crate) fn quad_lone(curve: QuadBezier, progress: Progress) -> Lone
    requires { T (table_is_sound curve.table.entries curve.table.total) }
    ensures { result ≡ quad_lone curve progress.value }
{
    let table = curve.table;
    let raw = raw_parameter(table, progress);
    let position = bezier::quad_sample(curve.start, curve.control, curve.end, raw);
    let tangent = bezier::inner::quad_tangent_at(curve, raw, progress);
    let length = bezier::quad_length(curve);
    Lone {
        position,
        tangent,
        raw,
        length,
    }
}

// A cubic.
pub(crate) fn cubic_lone(curve: CubicBezierCurve, progress: Progress) -> Lone
    requires { T (table_is_sound curve.table.entries curve.table.total) }
    ensures { result ≡ cubic_lone curve progress.value }
{
    let table = curve.table;
    let raw = raw_parameter(table, progress);
    let position = bezier::cubic_sample(
        curve.start,
        curve.control1,
        curve.control2,
        curve.end,
        raw,
    );
    let tangent = bezier::inner::cubic_tangent_at(curve, raw, progress);
    let length = bezier::cubic_length(curve);
    Lone {
        position,
        tangent,
        raw,
        length,
    }
}

// A line, looked up in a single 0: its raw parameter is the clamped progress.
pub(crate) fn line_lone(line: LineSegment, progress: Progress) -> Lone
    ensures { result ≡ line_lone line progress.value }
{
    let single = [0.0f32; 1];
    let raw = raw_parameter_in(&single, 0.0, progress);
    let position = arc::line_point(line, raw);
    let tangent = arc::line_tangent(line);
    let length = arc::line_length(line);
    Lone {
        position,
        tangent,
        raw,
        length,
    }
}

// An arc: its ellipse's, or the line that it fell back to.
pub(crate) fn arc_lone(arc: EllipticalArc, progress: Progress) -> Lone
    requires { arc.line_fallback ≡ false → T (table_is_sound arc.table.entries arc.table.total) }
    ensures { result ≡ arc_lone arc progress.value }
{
    let shape = arc.shape;
    let table = arc.table;
    if arc.line_fallback {
        return line_lone(arc::chord_line(shape), progress);
    }
    let raw = raw_parameter(table, progress);
    let position = arc::arc_sample(shape, raw);
    let tangent = arc::arc_heading(shape, raw);
    let length = arc::arc_length(arc);
    Lone {
        position,
        tangent,
        raw,
        length,
    }
}
