//! What a local says by itself at each position, whatever its steps found.
//!
//! How it is stated is this project's own.
#![tactic(auto)]

pub mod laws;
