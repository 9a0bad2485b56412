// One shape on its way to another (morph.rs, `MorphPath`). A morph is its two shapes, resampled to as
// many points each: `morph` makes them, `evaluate` and `bounds_at` read them.
#![tactic(auto)]

mod between;
mod bounding;
mod evaluating;
mod morphing;

pub use bounding::{Bounds, bounds_at};
pub use evaluating::evaluate;
pub use morphing::{Morphed, morph, morph_default};
