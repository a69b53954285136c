//! Laws of a trace's runs: what a trace comes to is one. This project's own.
#![tactic(auto)]

pub mod laws;
