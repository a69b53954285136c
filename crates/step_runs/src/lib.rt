//! The runs of a pool's seats: every state that its words, its office and its seats come to, step by step.
//!
//! A run is one row of one seat's course after another, and says nothing more of the words. So one thread that makes
//! the turns of all seats and threads that share the words run alike, and what holds of all runs is a law over this
//! one definition. This project's own.
#![tactic(auto)]

mod entry;
pub mod laws;

pub use entry::{Entry, Made, Told};
