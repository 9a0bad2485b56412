// What asks more of its callers than an entry may, or tells less: handed on to crates that are proved to meet it.
pub use crate::quick::quick;
