//! What ties the whole of a pool to the locals of its seats, and what a turn of a local is to make of the whole.
//!
//! How it is stated is this project's own.
#![tactic(auto)]

pub mod laws;
