// The sines and cosines of a run of angles at once: the sums of `trig`, pass by pass over rows of 8, so that a compiler takes
// several products in one step. Each equals the definition of `trig_rule`, as those of `trig` do.
#![tactic(auto)]

pub mod inner;
mod passes;
mod steps;
mod sums;
