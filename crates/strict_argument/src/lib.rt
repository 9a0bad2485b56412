// Strict reading of one argument of a path command: where the word of the grammar that starts at a
// place ends. No function here passes white space or a separator before the word.
#![tactic(auto)]

mod groups;
mod words;

pub use groups::{Kind, read_argument};
pub use words::{Text, past_gap, past_separator, past_space};
