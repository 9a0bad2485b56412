// The C interface's third part: quads, cubics, lines, arcs and splines.
// Entries that are alike stay apart: C calls each by its own name, and each takes what C lends, slice by slice.
#![tactic(auto)]

pub mod arcs;
pub mod curve_tables;
pub mod curves;
pub mod lone;
pub mod splines;
