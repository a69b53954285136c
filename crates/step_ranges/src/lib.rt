//! No word is ever out of its kind, and no word holds an index that is: in every run of a pool's seats.
//!
//! What there is, and how it is stated, is this project's own.
#![tactic(auto)]

pub mod laws;
