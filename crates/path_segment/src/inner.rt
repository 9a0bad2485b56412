// What asks more of its callers than an entry may: handed on to crates that are proved to meet it.
pub use crate::fields::{put_segment, put_table, segment_at, store_table, table_at};
