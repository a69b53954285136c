//! What follows for the words of runs of calls: each index that a step names is one of the pool's, and nothing is asked
//! of the cache's links.
//!
//! How it is stated is this project's own.
#![tactic(auto)]

pub mod laws;
