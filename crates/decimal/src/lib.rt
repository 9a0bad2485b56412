// Decimal numbers in a text: the f32 that is nearest to what the text denotes, for any count of
// digits and any exponent, and the place past it.
#![tactic(auto)]

pub mod inner;
mod magnitudes;
pub mod numbers;
mod quick;

pub use numbers::{Read, number};
