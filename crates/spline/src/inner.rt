// What asks more of its callers than an entry may: handed on to crates that are proved to meet it. `blend` asks nothing, and is a part of a sample.
pub use crate::formula::blend;
pub use crate::sampling::{after_span, before_span, direction, sample};
