// The lines that the station tool prints, written into a lent buffer of bytes.
#![tactic(auto)]

pub mod inner;
mod lines;
mod numbers;
