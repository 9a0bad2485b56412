// The stored path: five buffers that hold the kinds, the fields, the tables, the running lengths and the command numbers of its
// segments, and their check. What stands here asks nothing and refuses; `inner` has the same for a caller that knows the path to be stored.
#![tactic(auto)]

mod checking;
mod counts;
pub mod inner;
mod leaving;
mod near;
mod parts;
mod path_buffers;
mod paths;
mod queries;

pub use checking::check_path;
pub use path_buffers::PathBuffers;
pub use paths::StoredPath;
pub use queries::{Part, arc_length, is_empty, len, segment};
