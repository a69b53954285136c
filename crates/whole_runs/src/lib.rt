//! Runs of a pool's seats as runs of the whole pool: every state that calls lead to is one of the joined laws.
//!
//! How it is stated is this project's own.
#![tactic(auto)]

pub mod laws;
