// How an answer leaves through the C interface: its number is returned, and its values go into the lent answer.
#![tactic(auto)]

mod counts;
mod flights;
mod given;
mod places;

pub use counts::give_count;
pub use flights::give_flight;
pub use given::{accept, accept_six, refuse};
pub use places::{give_place, give_turn};
