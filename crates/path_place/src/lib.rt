// A place on a path.
#![tactic(auto)]

mod cursors;
pub mod inner;
mod lookups;
mod places;

pub use cursors::{Cursor, first_cursor};
pub use places::Place;
