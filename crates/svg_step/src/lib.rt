// The reader's state and its step: from a place in a text of path data to the next command.
#![tactic(auto)]

mod steps;

pub use steps::{Pass, Reader, Stepped, fresh, pass_step, read_step};
