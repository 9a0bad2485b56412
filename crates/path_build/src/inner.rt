// What building from a text shares with building from a list: the places that a path needs, and the answer to them.
pub use crate::room::{Counts, room};
