// A call that puts numbers into a lent output: what it writes and what it answers, and the numbers of
// a table and of an arc in their order.
#![tactic(auto)]

mod listed;
mod outputs;

pub use listed::{arc_numbers, table_numbers};
pub use outputs::fill;
