// Quadratic and cubic curves (bezier.rs): making one with its table of running lengths, and its position and direction at a
// progress. What stands here asks nothing and refuses; `inner` has the same for a caller that knows the table to be sound.
#![tactic(auto)]

mod cubics;
mod curves;
pub mod inner;
mod lookups;
mod quads;
mod queries;
mod rows;

pub use cubics::{
    CubicBezierCurve, cubic, cubic_derivative, cubic_length, cubic_position, cubic_rotation_deg,
    cubic_sample, cubic_table, cubic_tangent,
};
pub use curves::{ahead, is_nothing, verdict_of};
pub use quads::{
    QuadBezier, quad, quad_derivative, quad_length, quad_position, quad_rotation_deg, quad_sample,
    quad_table, quad_tangent,
};
