//! Which blocks of granules each seat has in its hand, by the position of its local, and how each turn changes that.
//!
//! How it is stated is this project's own.
#![tactic(auto)]

pub mod laws;
