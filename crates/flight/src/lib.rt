// The one answer of a path or a spline at a progress: where it is, where it heads, and the pair of segment and raw parameter under
// which a pulse packet is filed. `path_query` and `spline_query` give it.
#![tactic(auto)]

use math::Point;
use table::RawParameter;

// The position in path units; the tangent with the length 1, or (0, 0) where nothing tells; the pair at which both were taken. The
// segment is counted from 0, and a path without segments has none.
#[derive(Clone, Copy)]
pub struct Flight {
    pub position: Point,
    pub tangent: Point,
    pub segment: Option<usize>,
    pub raw: RawParameter,
}
