// Listing asks that the path is short, has few commands and ends within the places of a listing; the tool's work is proved to meet that.
pub use crate::listing::list;
