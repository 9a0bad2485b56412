// From a text of path data to a stored path, with no command list between them: both passes step through the text and build as they go.
#![tactic(auto)]

mod entry;
mod texts;

pub use entry::build_from_text;
