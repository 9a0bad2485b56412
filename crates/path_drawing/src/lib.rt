// What a command draws (poly.rs, `from_commands`): the pen between two commands, and the segment that a command makes.
#![tactic(auto)]

mod pens;
mod strokes;

pub use pens::{Pen, drawn, fresh, moved};
pub use strokes::{Drawn, draw};
