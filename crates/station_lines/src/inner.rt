// The functions ask that their bytes end within the 69,632 places of a listing; the tool's work is proved to meet that.
pub use crate::lines::{
    put_amount, put_command, put_header, put_refusal, put_segment, put_station,
};
