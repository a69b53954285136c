//! Laws of machines over runs of seats: what a machine of one thread comes to is a state of a run, so each law over runs
//! holds of it. This project's own.
#![tactic(auto)]

pub mod laws;
