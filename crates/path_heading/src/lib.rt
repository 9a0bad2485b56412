// Where a segment is and where it heads, at its raw parameter.
#![tactic(auto)]

mod ahead;
mod directions;
pub mod inner;
mod points;

pub use points::sample;
