// The table of running lengths of a Catmull-Rom spline through lent points (bezier.rs, `build_table`), stored in a lent slice.
#![tactic(auto)]

mod entries;
pub mod inner;
mod lanes;
mod rows;
mod tables;

pub use tables::spline_table;
