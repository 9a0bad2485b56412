// One command on the way to a stored path: what it draws is judged and counted, and then stored, at a site that both passes over a list
// of commands go along.
#![tactic(auto)]

mod arc_tallies;
mod direct;
pub mod inner;
mod laying;
mod sites;
mod tallies;

pub use sites::{Site, Sizes, start};
pub use tallies::{Tally, opening};
