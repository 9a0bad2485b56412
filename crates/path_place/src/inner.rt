// What asks more of its callers than an entry may: handed on to crates that are proved to meet it.
pub use crate::cursors::{back, cursor_at, forward};
pub use crate::lookups::{moved, raw_for, raw_in, raw_within};
