// The exports of kihavute_segments::segments.
ghost use Rattle.path_stored.specs.Buffers.{before};
ghost use Rattle.path_stored.specs.Queries.{counted_of, emptiness_of, measured_of, part_of, counted_answer, emptiness_answer, measured_answer};
ghost use Rattle.c_answer.specs.Given.{Given};
ghost use Rattle.kihavute_segments.specs.Segments.{SegmentGiven, position_given, tangent_given, rotation_given};

// How many segments there are.
#[unsafe(no_mangle)]
pub extern "C" fn kihavute_len(
    kinds: &[u8],
    fields: &[f32],
    tables: &[f32],
    lengths: &[f32],
    commands: &[u32],
    answer: &mut [u64],
) -> u32
    ensures { Given (counted_answer (counted_of (before kinds fields tables lengths commands)))
        answer.old result answer.new }
{
    kihavute_segments::segments::kihavute_len(kinds, fields, tables, lengths, commands, answer)
}

// Whether there are none: 1 for a yes, 0 for a no.
#[unsafe(no_mangle)]
pub extern "C" fn kihavute_is_empty(
    kinds: &[u8],
    fields: &[f32],
    tables: &[f32],
    lengths: &[f32],
    commands: &[u32],
    answer: &mut [u64],
) -> u32
    ensures { Given (emptiness_answer (emptiness_of (before kinds fields tables lengths commands)))
        answer.old result answer.new }
{
    kihavute_segments::segments::kihavute_is_empty(kinds, fields, tables, lengths, commands, answer)
}

// The bits of the path's length.
#[unsafe(no_mangle)]
pub extern "C" fn kihavute_path_length(
    kinds: &[u8],
    fields: &[f32],
    tables: &[f32],
    lengths: &[f32],
    commands: &[u32],
    answer: &mut [u64],
) -> u32
    ensures { Given (measured_answer (measured_of (before kinds fields tables lengths commands)))
        answer.old result answer.new }
{
    kihavute_segments::segments::kihavute_path_length(
        kinds, fields, tables, lengths, commands, answer,
    )
}

// Segment i: its kind, and its numbers with those of its table from the output's start.
#[unsafe(no_mangle)]
pub extern "C" fn kihavute_segment(
    kinds: &[u8],
    fields: &[f32],
    tables: &[f32],
    lengths: &[f32],
    commands: &[u32],
    i: usize,
    out: &mut [f32],
    answer: &mut [u64],
) -> u32
    ensures { SegmentGiven (part_of (before kinds fields tables lengths commands) i)
        out.old answer.old result out.new answer.new }
{
    kihavute_segments::segments::kihavute_segment(
        kinds, fields, tables, lengths, commands, i, out, answer,
    )
}

// The bits of x and of y of segment i at a progress along it.
#[unsafe(no_mangle)]
pub extern "C" fn kihavute_segment_position(
    kinds: &[u8],
    fields: &[f32],
    tables: &[f32],
    lengths: &[f32],
    commands: &[u32],
    i: usize,
    along: f32,
    answer: &mut [u64],
) -> u32
    ensures { Given (position_given (part_of (before kinds fields tables lengths commands) i) along)
        answer.old result answer.new }
{
    kihavute_segments::segments::kihavute_segment_position(
        kinds, fields, tables, lengths, commands, i, along, answer,
    )
}

// The bits of x and of y of its heading there.
#[unsafe(no_mangle)]
pub extern "C" fn kihavute_segment_tangent(
    kinds: &[u8],
    fields: &[f32],
    tables: &[f32],
    lengths: &[f32],
    commands: &[u32],
    i: usize,
    along: f32,
    answer: &mut [u64],
) -> u32
    ensures { Given (tangent_given (part_of (before kinds fields tables lengths commands) i) along)
        answer.old result answer.new }
{
    kihavute_segments::segments::kihavute_segment_tangent(
        kinds, fields, tables, lengths, commands, i, along, answer,
    )
}

// The bits of that heading in degrees from the x axis towards the y axis.
#[unsafe(no_mangle)]
pub extern "C" fn kihavute_segment_rotation(
    kinds: &[u8],
    fields: &[f32],
    tables: &[f32],
    lengths: &[f32],
    commands: &[u32],
    i: usize,
    along: f32,
    answer: &mut [u64],
) -> u32
    ensures { Given (rotation_given (part_of (before kinds fields tables lengths commands) i) along)
        answer.old result answer.new }
{
    kihavute_segments::segments::kihavute_segment_rotation(
        kinds, fields, tables, lengths, commands, i, along, answer,
    )
}
