// A season as it comes. What asks more of its callers than an entry may: a state that stands for the bytes fed so far.
pub use crate::feeding::{feed, feed_read, start};
pub use crate::sheets::sheet;
