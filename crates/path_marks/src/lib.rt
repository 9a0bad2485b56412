// Cursors that are kept at every so many segments of a path, so that a walk to any segment is short.
#![tactic(auto)]

pub mod inner;
mod marks;
