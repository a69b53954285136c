//! Workers in threads of their own. Where a thread can't be started, the caller runs its worker's lines itself.
//!
//! Modules: `turns` (the lines of several workers, in the order of the lines) and `starting` (a thread for each worker).
//! This project's own.
#![tactic(auto)]

mod starting;
mod turns;

pub use starting::run_workers;
