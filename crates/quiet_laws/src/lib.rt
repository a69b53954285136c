//! What quiet pools rest on: laws of resets, and of where the office lies while no seat has taken it.
#![tactic(auto)]

pub mod laws;
