// Queries of a stored spline: points and the table that `spline_table` made for them. Each entry checks the spline and refuses what is
// not sound; `StoredSpline` is one that passed. PolyPath of poly.rs is this spline under another name.
#![tactic(auto)]

mod queries;
mod soundness;
mod splines;

pub use queries::{spline_flight, spline_length, spline_rotation_deg};
pub use soundness::spline_is_sound;
pub use splines::StoredSpline;
