// The segments of a stored path: how many there are, how long they are together, and one of them by its number, counted from 0. Each
// call checks the whole path first. A number past the last segment is accepted, and gives nothing.
ghost use Rattle.std.specs.Prelude.{◌≡◌, ◌≤◌, length, Some, Ok};
ghost use Rattle.answers.specs.Report.{written};
ghost use Rattle.path_segment.specs.Segments.{kind_of};
ghost use Rattle.path_stored.specs.Buffers.{before};
ghost use Rattle.path_stored.specs.Queries.{counted_of, emptiness_of, measured_of, part_of, counted_answer, emptiness_answer, measured_answer};
ghost use Rattle.c_answer.specs.Given.{Given};
ghost use Rattle.kihavute_segments.specs.Segments.{places_of, numbers_of, SegmentGiven, position_given, tangent_given, rotation_given};

use answers::{Refusal, Values};
use path_segment::inner::{put_segment, put_table};
use path_segment::{PathSegment, has_table, kind, width};
use path_stored::{Part, PathBuffers};
use table::{Progress, Table};

// How many segments there are.
#[unsafe(no_mangle)]
pub extern "C" fn kihavute_len(
    kinds: &[u8],
    fields: &[f32],
    tables: &[f32],
    lengths: &[f32],
    commands: &[u32],
    answer: &mut [u64],
) -> u32
    ensures { Given (counted_answer (counted_of (before kinds fields tables lengths commands)))
        answer.old result answer.new }
{
    let path = PathBuffers {
        kinds,
        fields,
        tables,
        lengths,
        commands,
    };
    c_answer::give_count(path_stored::len(path), answer)
}

// Whether there are none: 1 for a yes, 0 for a no.
#[unsafe(no_mangle)]
pub extern "C" fn kihavute_is_empty(
    kinds: &[u8],
    fields: &[f32],
    tables: &[f32],
    lengths: &[f32],
    commands: &[u32],
    answer: &mut [u64],
) -> u32
    ensures { Given (emptiness_answer (emptiness_of (before kinds fields tables lengths commands)))
        answer.old result answer.new }
{
    let path = PathBuffers {
        kinds,
        fields,
        tables,
        lengths,
        commands,
    };
    match path_stored::is_empty(path) {
        Ok(true) => c_answer::accept(Values::One(1), answer),
        Ok(false) => c_answer::accept(Values::One(0), answer),
        Err(refusal) => c_answer::refuse(refusal, answer),
    }
}

// The bits of the path's length.
#[unsafe(no_mangle)]
pub extern "C" fn kihavute_path_length(
    kinds: &[u8],
    fields: &[f32],
    tables: &[f32],
    lengths: &[f32],
    commands: &[u32],
    answer: &mut [u64],
) -> u32
    ensures { Given (measured_answer (measured_of (before kinds fields tables lengths commands)))
        answer.old result answer.new }
{
    let path = PathBuffers {
        kinds,
        fields,
        tables,
        lengths,
        commands,
    };
    match path_stored::arc_length(path) {
        Ok(total) => c_answer::accept(Values::One(floats::bits(total) as usize), answer),
        Err(refusal) => c_answer::refuse(refusal, answer),
    }
}

// How many numbers a segment of a kind has, with those of its table.
fn places(kind: u8) -> usize
    ensures { result ≡ places_of kind }
{
    if has_table(kind) {
        return width(kind) + 33;
    }
    width(kind)
}

// Puts a segment's numbers at the start of out, and after them those of its table, if it has one.
fn put_part(table: Table, segment: PathSegment, out: &mut [f32])
    requires { places_of (kind_of segment) ≤ length out.old }
    ensures { out.new ≡ written (numbers_of segment table) out.old }
{
    put_segment(out, 0, segment);
    if has_table(kind(segment)) {
        put_table(out, width(kind(segment)), table);
    }
}

// The kind, and how many numbers are put into out.
fn give_part(part: Part, out: &mut [f32], answer: &mut [u64]) -> u32
    requires { 8 ≤ length answer.old }
    ensures { SegmentGiven (Ok (Some part)) out.old answer.old result out.new answer.new }
{
    let own = kind(part.segment);
    let needed = places(own);
    if out.len() < needed {
        return c_answer::refuse(Refusal::NoRoom(Values::One(needed)), answer);
    }
    put_part(part.table, part.segment, out);
    c_answer::accept(Values::Two(own as usize, needed), answer)
}

// Segment i: its kind, and its numbers with those of its table from the output's start.
#[unsafe(no_mangle)]
pub extern "C" fn kihavute_segment(
    kinds: &[u8],
    fields: &[f32],
    tables: &[f32],
    lengths: &[f32],
    commands: &[u32],
    i: usize,
    out: &mut [f32],
    answer: &mut [u64],
) -> u32
    ensures { SegmentGiven (part_of (before kinds fields tables lengths commands) i)
        out.old answer.old result out.new answer.new }
{
    if answer.len() < 8 {
        return 255;
    }
    let path = PathBuffers {
        kinds,
        fields,
        tables,
        lengths,
        commands,
    };
    match path_stored::segment(path, i) {
        Ok(Some(part)) => give_part(part, out, answer),
        Ok(None) => c_answer::accept(Values::Nothing, answer),
        Err(refusal) => c_answer::refuse(refusal, answer),
    }
}

// The bits of x and of y of segment i at a progress along it.
#[unsafe(no_mangle)]
pub extern "C" fn kihavute_segment_position(
    kinds: &[u8],
    fields: &[f32],
    tables: &[f32],
    lengths: &[f32],
    commands: &[u32],
    i: usize,
    along: f32,
    answer: &mut [u64],
) -> u32
    ensures { Given (position_given (part_of (before kinds fields tables lengths commands) i) along)
        answer.old result answer.new }
{
    let path = PathBuffers {
        kinds,
        fields,
        tables,
        lengths,
        commands,
    };
    match path_stored::segment(path, i) {
        Ok(Some(part)) => {
            let at = path_part::position(part.segment, part.table, Progress { value: along });
            c_answer::give_place(at, answer)
        }
        Ok(None) => c_answer::accept(Values::Nothing, answer),
        Err(refusal) => c_answer::refuse(refusal, answer),
    }
}

// The bits of x and of y of its heading there.
#[unsafe(no_mangle)]
pub extern "C" fn kihavute_segment_tangent(
    kinds: &[u8],
    fields: &[f32],
    tables: &[f32],
    lengths: &[f32],
    commands: &[u32],
    i: usize,
    along: f32,
    answer: &mut [u64],
) -> u32
    ensures { Given (tangent_given (part_of (before kinds fields tables lengths commands) i) along)
        answer.old result answer.new }
{
    let path = PathBuffers {
        kinds,
        fields,
        tables,
        lengths,
        commands,
    };
    match path_stored::segment(path, i) {
        Ok(Some(part)) => {
            let to = path_part::tangent(part.segment, part.table, Progress { value: along });
            c_answer::give_place(to, answer)
        }
        Ok(None) => c_answer::accept(Values::Nothing, answer),
        Err(refusal) => c_answer::refuse(refusal, answer),
    }
}

// The bits of that heading in degrees from the x axis towards the y axis.
#[unsafe(no_mangle)]
pub extern "C" fn kihavute_segment_rotation(
    kinds: &[u8],
    fields: &[f32],
    tables: &[f32],
    lengths: &[f32],
    commands: &[u32],
    i: usize,
    along: f32,
    answer: &mut [u64],
) -> u32
    ensures { Given (rotation_given (part_of (before kinds fields tables lengths commands) i) along)
        answer.old result answer.new }
{
    let path = PathBuffers {
        kinds,
        fields,
        tables,
        lengths,
        commands,
    };
    match path_stored::segment(path, i) {
        Ok(Some(part)) => {
            let to = path_part::rotation_deg(part.segment, part.table, Progress { value: along });
            c_answer::give_turn(to, answer)
        }
        Ok(None) => c_answer::accept(Values::Nothing, answer),
        Err(refusal) => c_answer::refuse(refusal, answer),
    }
}
