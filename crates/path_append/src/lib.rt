// Appending to a stored path (poly.rs, `push_segment`, `line_to`, `quad_to`, `cubic_to`, `arc_to`): the caller lends five buffers,
// says how many segments of them are the path, and names the number of the command that made the new one. The segment is stored after
// them, and the path passes the check as before.
#![tactic(auto)]

mod drawing;
mod pushing;
mod storing;
mod used;

pub use drawing::{arc_to, cubic_to, line_to, quad_to};
pub use pushing::push_segment;
