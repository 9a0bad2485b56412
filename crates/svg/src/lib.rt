// The permissive reader: from a text of path data to a list of commands in three lent buffers.
#![tactic(auto)]

mod lean;
mod passes;
mod reading;

pub use lean::read_lean;
pub use passes::Counts;
pub use reading::read_path;
