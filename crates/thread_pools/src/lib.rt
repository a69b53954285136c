//! The pools of a trace that threads share, and the heaps of each thread.
//!
//! Modules: `columns` (the heaps of each pool, and those of each thread) and `crews` (a worker for each thread). This
//! project's own.
#![tactic(auto)]

mod columns;
mod crews;

pub use columns::{Column, put_row, take_row};
pub use crews::make_workers;
