// The C interface's sixth part: segments appended to a stored path, one by one.
// Entries that are alike stay apart: C calls each by its own name, and each takes what C lends, slice by slice.
#![tactic(auto)]

pub mod appending;
