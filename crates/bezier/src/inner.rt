// What asks more of its callers than an entry may: handed on to crates that are proved to meet it.
pub use crate::cubics::{cubic_direction, cubic_tangent_at};
pub use crate::lookups::{cubic_position, cubic_tangent, quad_position, quad_tangent};
pub use crate::quads::{quad_direction, quad_tangent_at};
