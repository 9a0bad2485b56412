// The commands of a plan's path, line by line.
#![tactic(auto)]

pub mod inner;
mod listing;
