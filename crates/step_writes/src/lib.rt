//! What each step writes: of every position of a seat, the kind of the word that its next step may write, and how.
//!
//! What there is, and how it is told, is this project's own.
#![tactic(auto)]

pub mod laws;
