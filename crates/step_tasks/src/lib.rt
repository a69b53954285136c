//! What each seat is about to do with the words of each group of laws, by the position of its local.
//!
//! How it is stated is this project's own.
#![tactic(auto)]

pub mod laws;
