//! Laws of the whole pool: what a law crate says of its words holds of every run of any seats.
//!
//! What there is, and how it is joined, is this project's own.
#![tactic(auto)]

pub mod laws;
