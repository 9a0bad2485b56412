// Places in a text of path data: which class a byte is of, where a run of bytes ends, and where the
// parts of a number stand. A place counts bytes from 0, and every function takes every place: past
// the text there is nothing to pass, and the answer is the place itself.
#![tactic(auto)]

pub mod bytes;
pub mod numbers;
pub mod runs;

pub use bytes::{
    is_digit, is_exponent_mark, is_flag, is_separator, is_sign, is_white, starts_number,
};
pub use numbers::{NumberError, Places, scan_number};
pub use runs::{
    byte_at, past_comma, past_digits, past_optional, past_point, past_run, past_separators,
    past_sign, past_white,
};
