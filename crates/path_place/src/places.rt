// A place on a path.
use table::RawParameter;

// The segment, counted from 0, and its own parameter.
#[derive(Clone, Copy)]
pub struct Place {
    pub segment: usize,
    pub raw: RawParameter,
}
