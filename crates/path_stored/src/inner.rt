// What asks more of its callers than an entry may: handed on to crates that are proved to meet it.
pub use crate::counts::{fields_between, tables_between};
pub use crate::near::{fields_near, tables_near};
pub use crate::parts::{fields_before, segment, segment_table, tables_before, total};
