//! Turns at the cache of large blocks as steps of the whole of a pool, with what the seat has in hand.
//!
//! How it is stated is this project's own.
#![tactic(auto)]

pub mod laws;
