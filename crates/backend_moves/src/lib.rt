//! Turns at the backend's bins as steps of the whole of a pool: scans, cuts, and what a put does at a bin.
//!
//! How it is stated is this project's own.
#![tactic(auto)]

pub mod laws;
