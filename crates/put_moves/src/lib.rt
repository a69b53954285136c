//! Turns at the put of a block, and at the emptying of the queue, as steps of the whole of a pool.
//!
//! How it is stated is this project's own.
#![tactic(auto)]

pub mod laws;
