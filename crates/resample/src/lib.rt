// A line through points, with evenly spaced points in place of its own (morph.rs, `resample`).
// `resample` asks nothing and refuses; `inner` has its parts, for points and counts that were judged.
#![tactic(auto)]

pub mod inner;
mod resampling;
mod spreading;
mod walking;

pub use resampling::resample;
