// Lines and elliptical arcs (poly.rs): making one, and its position and direction at a progress. What stands here asks nothing and
// refuses; `inner` has an arc's queries for a caller that knows the table to be sound.
#![tactic(auto)]

mod arcs;
pub mod inner;
mod lines;
mod lookups;
mod samples;

pub use arcs::{
    EllipticalArc, arc, arc_heading, arc_length, arc_position, arc_rotation_deg, arc_sample,
    arc_table, arc_tangent, chord_line, fallback_shape, is_fallback, no_table,
};
pub use lines::{
    LineSegment, line, line_length, line_point, line_position, line_rotation_deg, line_tangent,
};
