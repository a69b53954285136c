//! What a seat's local says of a whole pool stands through the steps of all other seats.
//!
//! How it is stated is this project's own.
#![tactic(auto)]

pub mod laws;
