// The C interface's fifth part: the segments of a stored path, asked one by one.
// Entries that are alike stay apart: C calls each by its own name, and each takes what C lends, slice by slice.
#![tactic(auto)]

pub mod segments;
