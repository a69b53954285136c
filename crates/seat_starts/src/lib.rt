//! What a position starts: the steps by which a seat begins what its next position says, which write nothing.
//!
//! How it is stated is this project's own.
#![tactic(auto)]

pub mod laws;
