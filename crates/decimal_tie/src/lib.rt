// A number's decimal digits, however many, against the middle between two floats: digit by digit, in
// numbers of three words.
#![tactic(auto)]

pub mod inner;
mod scales;
