//! What every turn of a call keeps.
#![tactic(auto)]

pub mod laws;
