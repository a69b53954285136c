//! Turns at the office as steps of the whole of a pool.
//!
//! How it is stated is this project's own.
#![tactic(auto)]

pub mod laws;
