//! Laws of a whole pool: all groups of words and blocks over one memory, at once.
//!
//! The join of the groups' laws is this project's own.
#![tactic(auto)]

pub mod laws;
