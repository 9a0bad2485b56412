// What stands after a command's letter: one group of numbers and flags, read into a command or only
// passed.
#![tactic(auto)]

mod groups;
mod letters;
mod numbers;
mod passing;

pub use groups::{Group, read_group};
pub use letters::{Kind, Letter, is_letter, meaning, width};
pub use passing::pass_group;
