// Many progresses along one stored path, which is checked once: for those who file packets.
#![tactic(auto)]

mod batches;
pub mod inner;

pub use batches::{flights, places};
