// What asks more of its callers than an entry may: 25 counters, and a sum that has room.
pub use crate::lines::put_sheet;
pub use crate::measures::more;
