// What a segment answers at a progress along itself (poly.rs, `PathSegment`): where it is, where it heads, and that in degrees.
#![tactic(auto)]

mod queries;

pub use queries::{position, rotation_deg, tangent};
