//! Laws of the whole pool: a grant is at one place at most, and its number never returns.
//!
//! What there is, and how it is stated, is this project's own.
#![tactic(auto)]

pub mod laws;
