//! Whole calls on a fixed pool are a run of the partition machine.
//!
//! The crate has definitions, in `specs/`, and laws, each of which is what a function of `laws` ensures. There is no
//! code to run.
//!
//! - `Steps` has the steps of each whole call of `plain_lists`, as turns of a run of the machine.
//! - `Journal` has the events of several calls.
//! - `Laws` says that the calls are a run, and what the partition holds at its end.
//!
//! This project's own.
#![tactic(auto)]

pub mod laws;
