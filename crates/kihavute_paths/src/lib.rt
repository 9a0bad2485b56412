// The C interface's fourth part: paths, built, stored and asked, the station tool, and shapes.
// Entries that are alike stay apart: C calls each by its own name, and each takes what C lends, slice by slice.
#![tactic(auto)]

pub mod batches;
pub mod listings;
pub mod morphs;
pub mod paths;
pub mod queries;
pub mod stored_paths;
