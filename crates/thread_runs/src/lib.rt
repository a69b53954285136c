//! A trace of plain calls, run by threads: each named thread runs its lines on a thread of its own.
//!
//! Modules: `making` (the pools of a trace, and their heaps), `gathering` (what comes back of the workers), `telling`
//! (what each line reports), `ending` (what a quiet pool has at the end) and `runs` (the whole trace). This project's
//! own.
#![tactic(auto)]

mod ending;
mod gathering;
mod making;
mod runs;
mod telling;

pub use runs::{Ran, run_by_threads};
