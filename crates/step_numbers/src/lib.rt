//! What a local keeps of its numbers: one is left for each grant that it comes to.
//!
//! How it is stated is this project's own.
#![tactic(auto)]

pub mod laws;
