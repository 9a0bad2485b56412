// The C interface: each function is a few lines over an entry of the crates below. Floats go in as
// floats; a float that comes out as bits is 7FC00000 where it is a NaN. A function that can refuse
// returns the refusal's number and gives the rest through its last slice, `answer`.
// Here are numbers, points and strict reading; crate kihavute_reading has the permissive reader, crate
// kihavute_curves the curves, crate kihavute_paths the paths and the shapes.
#![tactic(auto)]

pub mod decimals;
pub mod lookups;
pub mod numbers;
pub mod points;
pub mod strict_reading;
pub mod turns;
