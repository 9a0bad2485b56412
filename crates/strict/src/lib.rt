// Strict reading of path data: whether a text matches the grammar of SVG 1.1 Second
// Edition, 8.3.9, or of SVG 2, 9.3.9, as the caller says.
#![tactic(auto)]

mod commands;
mod texts;

pub use texts::strict;
