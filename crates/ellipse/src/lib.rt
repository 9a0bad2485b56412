// The geometry of an SVG arc: from its two ends, radii, rotation and flags to a centre and two
// angles (SVG 1.1, F.6.5 and F.6.6), in the order of operations of the Rust, and points and
// directions on the ellipse. Lengths are in path units, angles in radians but for the rotation.
#![tactic(auto)]

mod ends;
mod shape;
mod turn;

pub use ends::{Arc, Chord, Way, from_ends, size, way_of};
pub use shape::{angle_at, direction, on_ellipse, point, point_turned};
pub use turn::turn_of;
