// Segments appended to a stored path: its first `count` segments stand at the start of five lent buffers, and
// `command` is the number of the command that made the new one. A short answer is judged
// first; then, and where the call is refused, no buffer is touched.
ghost use Rattle.std.specs.Prelude.{◌≡◌};
ghost use Rattle.c_answer.specs.Given.{Given};
ghost use Rattle.path_stored.specs.Buffers.{after, before_mut};
ghost use Rattle.path_append.specs.Appending.{answer_of, arc_segment};
ghost use Rattle.arc.specs.Lines.{line_of};
ghost use Rattle.path_segment.specs.declared.segments.PathSegment.TheVariants.{Line, Quad, Cubic};
ghost use Rattle.kihavute_appending.specs.Appending.{Appends, Pushes, point_of, chord_of, is_segment};

use answers::{Refusal, Values};
use ellipse::Chord;
use math::Point;
use path_segment::inner::segment_at;
use path_segment::width;

// How many places of each buffer are in use now.
fn give_appended(appended: Result<Values, Refusal>, answer: &mut [u64]) -> u32
    ensures { Given (answer_of appended) answer.old result answer.new }
{
    match appended {
        Ok(counts) => c_answer::accept(counts, answer),
        Err(refusal) => c_answer::refuse(refusal, answer),
    }
}

// Whether a segment of a kind has such numbers: the kind is known, and has so many.
fn is_segment(kind: u8, numbers: &[f32]) -> bool
    ensures { result ≡ is_segment kind numbers.now }
{
    kind < 5 && numbers.len() == width(kind)
}

// Appends the segment of a kind and of its numbers, as both are stored; its table is made anew. A kind above 4, and another count of
// numbers than the kind's, is refused with 12.
#[unsafe(no_mangle)]
pub extern "C" fn kihavute_push_segment(
    kinds: &mut [u8],
    fields: &mut [f32],
    tables: &mut [f32],
    lengths: &mut [f32],
    commands: &mut [u32],
    count: usize,
    command: u32,
    kind: u8,
    numbers: &[f32],
    answer: &mut [u64],
) -> u32
    ensures { Pushes kind numbers.now count command (before_mut kinds fields tables lengths commands) answer.old
        result (after kinds fields tables lengths commands) answer.new }
{
    if answer.len() < 8 {
        return 255;
    }
    if is_segment(kind, numbers) {
        let segment = segment_at(kind, numbers, 0);
        let appended = path_append::push_segment(
            kinds, fields, tables, lengths, commands, count, command, segment,
        );
        return give_appended(appended, answer);
    }
    c_answer::refuse(Refusal::BadPath, answer)
}

// Appends the line from (sx, sy) to (ex, ey).
#[unsafe(no_mangle)]
pub extern "C" fn kihavute_line_to(
    kinds: &mut [u8],
    fields: &mut [f32],
    tables: &mut [f32],
    lengths: &mut [f32],
    commands: &mut [u32],
    count: usize,
    command: u32,
    sx: f32,
    sy: f32,
    ex: f32,
    ey: f32,
    answer: &mut [u64],
) -> u32
    ensures { Appends (Line (line_of (point_of sx sy) (point_of ex ey))) count command (before_mut kinds fields tables lengths commands) answer.old
        result (after kinds fields tables lengths commands) answer.new }
{
    if answer.len() < 8 {
        return 255;
    }
    let start = Point { x: sx, y: sy };
    let end = Point { x: ex, y: ey };
    let appended = path_append::line_to(
        kinds, fields, tables, lengths, commands, count, command, start, end,
    );
    give_appended(appended, answer)
}

// Appends the quad from (sx, sy) to (ex, ey), drawn towards (cx, cy).
#[unsafe(no_mangle)]
pub extern "C" fn kihavute_quad_to(
    kinds: &mut [u8],
    fields: &mut [f32],
    tables: &mut [f32],
    lengths: &mut [f32],
    commands: &mut [u32],
    count: usize,
    command: u32,
    sx: f32,
    sy: f32,
    cx: f32,
    cy: f32,
    ex: f32,
    ey: f32,
    answer: &mut [u64],
) -> u32
    ensures { Appends (Quad (point_of sx sy) (point_of cx cy) (point_of ex ey)) count command (before_mut kinds fields tables lengths commands) answer.old
        result (after kinds fields tables lengths commands) answer.new }
{
    if answer.len() < 8 {
        return 255;
    }
    let start = Point { x: sx, y: sy };
    let control = Point { x: cx, y: cy };
    let end = Point { x: ex, y: ey };
    let appended = path_append::quad_to(
        kinds, fields, tables, lengths, commands, count, command, start, control, end,
    );
    give_appended(appended, answer)
}

// Appends the cubic from (sx, sy) to (ex, ey), drawn towards (ax, ay) and then (bx, by).
#[unsafe(no_mangle)]
pub extern "C" fn kihavute_cubic_to(
    kinds: &mut [u8],
    fields: &mut [f32],
    tables: &mut [f32],
    lengths: &mut [f32],
    commands: &mut [u32],
    count: usize,
    command: u32,
    sx: f32,
    sy: f32,
    ax: f32,
    ay: f32,
    bx: f32,
    by: f32,
    ex: f32,
    ey: f32,
    answer: &mut [u64],
) -> u32
    ensures { Appends (Cubic (point_of sx sy) (point_of ax ay) (point_of bx by) (point_of ex ey)) count command (before_mut kinds fields tables lengths commands) answer.old
        result (after kinds fields tables lengths commands) answer.new }
{
    if answer.len() < 8 {
        return 255;
    }
    let start = Point { x: sx, y: sy };
    let a = Point { x: ax, y: ay };
    let b = Point { x: bx, y: by };
    let end = Point { x: ex, y: ey };
    let appended = path_append::cubic_to(
        kinds, fields, tables, lengths, commands, count, command, start, a, b, end,
    );
    give_appended(appended, answer)
}

// Appends the arc from (sx, sy) to (ex, ey) with the radii rx and ry, turned by so many degrees, or its line fallback. Of a flag 0 is
// no and any other number yes.
#[unsafe(no_mangle)]
pub extern "C" fn kihavute_arc_to(
    kinds: &mut [u8],
    fields: &mut [f32],
    tables: &mut [f32],
    lengths: &mut [f32],
    commands: &mut [u32],
    count: usize,
    command: u32,
    sx: f32,
    sy: f32,
    rx: f32,
    ry: f32,
    rotation: f32,
    large: u32,
    sweep: u32,
    ex: f32,
    ey: f32,
    answer: &mut [u64],
) -> u32
    ensures { Appends (arc_segment (chord_of sx sy rx ry rotation large sweep ex ey)) count command (before_mut kinds fields tables lengths commands) answer.old
        result (after kinds fields tables lengths commands) answer.new }
{
    if answer.len() < 8 {
        return 255;
    }
    let chord = Chord {
        start: Point { x: sx, y: sy },
        radii: Point { x: rx, y: ry },
        x_axis_rotation: rotation,
        large_arc: large != 0,
        sweep: sweep != 0,
        end: Point { x: ex, y: ey },
    };
    let appended = path_append::arc_to(
        kinds, fields, tables, lengths, commands, count, command, chord,
    );
    give_appended(appended, answer)
}
