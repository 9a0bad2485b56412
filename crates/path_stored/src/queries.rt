// What a path answers about its segments. Each entry checks the path first, and refuses what is not stored.
ghost use Rattle.std.specs.Prelude.{◌≡◌};
ghost use Rattle.path_stored.specs.Paths.{held};
ghost use Rattle.path_stored.specs.Queries.{counted_of, emptiness_of, measured_of, part_of};

use crate::checking::check_path;
use crate::inner;
use crate::leaving::leaving;
use crate::path_buffers::PathBuffers;
use answers::Refusal;
use path_segment::PathSegment;
use table::Table;

// A segment and its table. The table is not sound where the segment stores none.
#[derive(Clone, Copy)]
pub struct Part {
    pub segment: PathSegment,
    pub table: Table,
}

// How many segments there are.
#[tactic(auto, unfolding(crate::specs::Queries::counted_of))]
pub fn len(path: PathBuffers) -> Result<usize, Refusal>
    ensures { result ≡ counted_of (held path.entry) }
{
    if !check_path(path) {
        return Err(Refusal::BadPath);
    }
    let stored = path.stored();
    Ok(stored.buffers.kinds.len())
}

// Whether there are none.
#[tactic(auto, unfolding(crate::specs::Queries::emptiness_of))]
pub fn is_empty(path: PathBuffers) -> Result<bool, Refusal>
    ensures { result ≡ emptiness_of (held path.entry) }
{
    if !check_path(path) {
        return Err(Refusal::BadPath);
    }
    let stored = path.stored();
    Ok(stored.buffers.kinds.is_empty())
}

// The path's length: its last running length, or 0 without a segment.
#[tactic(auto, unfolding(crate::specs::Queries::measured_of))]
pub fn arc_length(path: PathBuffers) -> Result<f32, Refusal>
    ensures { result ≡ measured_of (held path.entry) }
{
    if !check_path(path) {
        return Err(Refusal::BadPath);
    }
    let stored = path.stored();
    Ok(inner::total(stored.buffers.lengths))
}

// Segment i with its table, or none past the path's last.
#[tactic(auto, unfolding(crate::specs::Queries::part_of))]
pub fn segment(path: PathBuffers, i: usize) -> Result<Option<Part>, Refusal>
    ensures { result ≡ part_of (held path.entry) i }
{
    if !check_path(path) {
        return Err(Refusal::BadPath);
    }
    let stored = path.stored();
    if stored.buffers.kinds.len() <= i {
        return Ok(None);
    }
    Ok(Some(Part {
        segment: leaving(stored.segment(i)),
        table: stored.segment_table(i),
    }))
}
