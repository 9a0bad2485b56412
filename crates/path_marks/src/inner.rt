// What asks more of its callers than an entry may: handed on to crates that are proved to meet it.
pub use crate::marks::{Marks, is_near, reached};
