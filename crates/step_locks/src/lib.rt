//! Laws of locks over the whole pool: which seat has the lock of which bin, and of which cache bin, in every run.
//!
//! What there is, and how it is joined, is this project's own.
#![tactic(auto)]

pub mod laws;
