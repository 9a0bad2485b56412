// One segment of a path: a line, a quad, a cubic, an arc or an arc that fell back to a line, its table beside it, and the stored
// form of both. What stands here asks nothing; `inner` reads and stores them in the buffers.
#![tactic(auto)]

mod fields;
pub mod inner;
mod segments;

pub use segments::{
    PathSegment, has_table, kind, segment_length, segment_table, table_width, width,
};
