//! What a seat's steps granted and freed, beside what its calls answered: laws over all runs.
#![tactic(auto)]

pub mod laws;
