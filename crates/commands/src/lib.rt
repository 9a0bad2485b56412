// Path commands: decoded as an enum, stored as letters and numbers, and the check of a stored list.
#![tactic(auto)]

mod checking;
mod command;
mod encoding;
pub mod inner;

pub use checking::check_commands;
pub use command::{PathCommand, letter, width};
