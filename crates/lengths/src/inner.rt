// Rows of lengths, for the samplers.
pub use crate::rows::{half_lengths, lengths};
