//! A whole trace, run on plain machines: each line on its pool, and what stands at the end. This project's own.
//!
//! Modules: `scripts` (what a pool's callback answers), `state` (what stands between two lines), `slots` (lines on a
//! pool), `lines` (each line), `ends` (what is said at the end) and `runs` (the whole trace).
#![tactic(auto)]

mod ends;
mod lines;
mod runs;
mod scripts;
mod slots;
mod state;
#[cfg(test)]
mod tests;

pub use ends::Summary;
pub use lines::{judged, options_of};
pub use runs::{RunError, run_lines, sum_lines};
pub use scripts::script_of;
