// The station tool's way to its bytes: a reader that keeps the lent text and its place, over proved
// steps on the text and the place.
#![tactic(auto)]

mod line;
mod reader;
mod steps;

pub use line::{FirstLine, past};
pub use reader::{TextReader, first_line, path_step, reader_at};
pub use steps::step_at;
