// Runs of decimal digits as numbers: the leading digits of a long run, and an exponent of any length.
#![tactic(auto)]

mod gathering;
pub mod inner;
mod words;
