// The query of a stored path (poly.rs): the point at a progress, the heading, and the pair of segment and raw parameter at which both were taken.
// It checks the whole path first and refuses what fails the check; `inner` has it for a caller that knows the path to be stored.
#![tactic(auto)]

mod flying;
pub mod inner;
mod queries;

pub use queries::{flight, rotation_deg};
