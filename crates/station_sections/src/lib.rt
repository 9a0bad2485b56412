// The two sections of a listing that a built path gives: its segments and its stations.
#![tactic(auto)]

pub mod inner;
mod putting;
