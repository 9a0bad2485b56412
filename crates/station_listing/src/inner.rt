// The station program's own step: it asks that the count of bytes read is within the array, which the program is proved to meet.
pub use crate::tool::stations_read;
