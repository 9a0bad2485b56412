// The station tool's work: from the bytes of a plan to the bytes of its listing.
#![tactic(auto)]

mod flights;
pub mod inner;
mod plans;
mod tool;

pub use tool::stations;
