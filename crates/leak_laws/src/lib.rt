//! Laws of leaks: what is listed as held in a pool was granted and not ended, each object once.
//!
//! How it is stated is this project's own.
#![tactic(auto)]

pub mod laws;
