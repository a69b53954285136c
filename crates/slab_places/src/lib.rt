//! Where slabs and large objects come to lie: what turns at slabs rest on is kept by every turn.
//!
//! How it is stated is this project's own.
#![tactic(auto)]

pub mod laws;
