//! What each seat is about to do at the cache of large blocks, by the position of its local.
//!
//! How it is stated is this project's own.
#![tactic(auto)]

pub mod laws;
