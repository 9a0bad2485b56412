// The f32 nearest to a number of which the leading decimal digits and the power of ten are known, by
// one product. Where what is left out could turn the answer, the answer is the two neighbours.
#![tactic(auto)]

pub mod inner;
mod products;
