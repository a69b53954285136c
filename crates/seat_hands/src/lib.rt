//! What seats have in hand stays theirs, as blocks come, leave, are cut and are joined.
//!
//! How it is stated is this project's own.
#![tactic(auto)]

pub mod laws;
