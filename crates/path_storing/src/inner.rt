// What asks more of its callers than an entry may: handed on to crates that are proved to meet it.
pub use crate::direct::{cubic_to, line_to, quad_to};
pub use crate::laying::{advance, lay, lay_any};
pub use crate::tallies::count;
