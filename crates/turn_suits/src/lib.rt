//! What a good whole says to a seat just before its step suits the turn.
//!
//! How it is stated is this project's own.
#![tactic(auto)]

pub mod laws;
