//! What each turn makes of the heap of its seat, of the number of its last grant, and of what it has noted of objects.
//!
//! How it is stated is this project's own.
#![tactic(auto)]

pub mod laws;
