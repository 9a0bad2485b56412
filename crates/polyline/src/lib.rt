// Points in a lent slice of numbers, two numbers each, x before y: how such a list is judged, how long
// the line through its points is, and how points are put into an output.
#![tactic(auto)]

pub mod inner;
mod judging;
mod outline;

pub use judging::{judge, judge_two};
