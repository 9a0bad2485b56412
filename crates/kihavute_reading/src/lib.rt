// The C interface's second part: the permissive reader, twice, and the check of a command list.
// Entries that are alike stay apart: C calls each by its own name, and each takes what C lends, slice by slice.
#![tactic(auto)]

pub mod lean;
pub mod reading;
