// The exports of kihavute_appending::appending.
ghost use Rattle.path_stored.specs.Buffers.{after, before_mut};
ghost use Rattle.path_append.specs.Appending.{arc_segment};
ghost use Rattle.arc.specs.Lines.{line_of};
ghost use Rattle.path_segment.specs.declared.segments.PathSegment.TheVariants.{Line, Quad, Cubic};
ghost use Rattle.kihavute_appending.specs.Appending.{Appends, Pushes, point_of, chord_of};

// Appends the segment of a kind and of its numbers, as both are stored; its table is made anew. A kind above 4, and another count of
// numbers than the kind's, is refused with 12.
#[unsafe(no_mangle)]
pub extern "C" fn kihavute_push_segment(
    kinds: &mut [u8],
    fields: &mut [f32],
    tables: &mut [f32],
    lengths: &mut [f32],
    commands: &mut [u32],
    count: usize,
    command: u32,
    kind: u8,
    numbers: &[f32],
    answer: &mut [u64],
) -> u32
    ensures { Pushes kind numbers.now count command (before_mut kinds fields tables lengths commands) answer.old
        result (after kinds fields tables lengths commands) answer.new }
{
    kihavute_appending::appending::kihavute_push_segment(
        kinds, fields, tables, lengths, commands, count, command, kind, numbers, answer,
    )
}

// Appends the line from (sx, sy) to (ex, ey).
#[unsafe(no_mangle)]
pub extern "C" fn kihavute_line_to(
    kinds: &mut [u8],
    fields: &mut [f32],
    tables: &mut [f32],
    lengths: &mut [f32],
    commands: &mut [u32],
    count: usize,
    command: u32,
    sx: f32,
    sy: f32,
    ex: f32,
    ey: f32,
    answer: &mut [u64],
) -> u32
    ensures { Appends (Line (line_of (point_of sx sy) (point_of ex ey))) count command (before_mut kinds fields tables lengths commands) answer.old
        result (after kinds fields tables lengths commands) answer.new }
{
    kihavute_appending::appending::kihavute_line_to(
        kinds, fields, tables, lengths, commands, count, command, sx, sy, ex, ey, answer,
    )
}

// Appends the quad from (sx, sy) to (ex, ey), drawn towards (cx, cy).
#[unsafe(no_mangle)]
pub extern "C" fn kihavute_quad_to(
    kinds: &mut [u8],
    fields: &mut [f32],
    tables: &mut [f32],
    lengths: &mut [f32],
    commands: &mut [u32],
    count: usize,
    command: u32,
    sx: f32,
    sy: f32,
    cx: f32,
    cy: f32,
    ex: f32,
    ey: f32,
    answer: &mut [u64],
) -> u32
    ensures { Appends (Quad (point_of sx sy) (point_of cx cy) (point_of ex ey)) count command (before_mut kinds fields tables lengths commands) answer.old
        result (after kinds fields tables lengths commands) answer.new }
{
    kihavute_appending::appending::kihavute_quad_to(
        kinds, fields, tables, lengths, commands, count, command, sx, sy, cx, cy, ex, ey, answer,
    )
}

// Appends the cubic from (sx, sy) to (ex, ey), drawn towards (ax, ay) and then (bx, by).
#[unsafe(no_mangle)]
pub extern "C" fn kihavute_cubic_to(
    kinds: &mut [u8],
    fields: &mut [f32],
    tables: &mut [f32],
    lengths: &mut [f32],
    commands: &mut [u32],
    count: usize,
    command: u32,
    sx: f32,
    sy: f32,
    ax: f32,
    ay: f32,
    bx: f32,
    by: f32,
    ex: f32,
    ey: f32,
    answer: &mut [u64],
) -> u32
    ensures { Appends (Cubic (point_of sx sy) (point_of ax ay) (point_of bx by) (point_of ex ey)) count command (before_mut kinds fields tables lengths commands) answer.old
        result (after kinds fields tables lengths commands) answer.new }
{
    kihavute_appending::appending::kihavute_cubic_to(
        kinds, fields, tables, lengths, commands, count, command, sx, sy, ax, ay, bx, by, ex, ey,
        answer,
    )
}

// Appends the arc from (sx, sy) to (ex, ey) with the radii rx and ry, turned by so many degrees, or its line fallback. Of a flag 0 is
// no and any other number yes.
#[unsafe(no_mangle)]
pub extern "C" fn kihavute_arc_to(
    kinds: &mut [u8],
    fields: &mut [f32],
    tables: &mut [f32],
    lengths: &mut [f32],
    commands: &mut [u32],
    count: usize,
    command: u32,
    sx: f32,
    sy: f32,
    rx: f32,
    ry: f32,
    rotation: f32,
    large: u32,
    sweep: u32,
    ex: f32,
    ey: f32,
    answer: &mut [u64],
) -> u32
    ensures { Appends (arc_segment (chord_of sx sy rx ry rotation large sweep ex ey)) count command (before_mut kinds fields tables lengths commands) answer.old
        result (after kinds fields tables lengths commands) answer.new }
{
    kihavute_appending::appending::kihavute_arc_to(
        kinds, fields, tables, lengths, commands, count, command, sx, sy, rx, ry, rotation, large,
        sweep, ex, ey, answer,
    )
}
