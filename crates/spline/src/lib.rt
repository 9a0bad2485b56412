// Catmull-Rom splines through lent points (bezier.rs): the table of running lengths, and position and direction at a progress.
// What stands here asks nothing and refuses; `inner` has what asks for points and a table that were judged.
#![tactic(auto)]

mod formula;
pub mod inner;
mod sampling;
