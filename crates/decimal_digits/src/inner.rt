// What asks more of its callers than an entry may: handed on to crates that are proved to meet it.
pub use crate::gathering::{
    Leading, Power, Taken, digit, exponent, fraction_digits, gather, gather_many, whole_digits,
};
