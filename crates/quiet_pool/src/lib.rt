//! Pools while no thread steps: their totals and leaks, their reset, and their end.
//!
//! A pool is made quiet with all its heaps. Its one place at the table then knows each word, has the office out of its
//! slot, and steps as any of the seats. What it comes to is a state of a run (`step_runs`) as before, so laws over runs
//! hold of a quiet pool too, and of the pool that is handed on from it.
//!
//! Modules: `refusals`, `moves` (how a place takes in others, and cuts them off), `noting` (how a place comes to know
//! all), `reading` (the words that are counted), `steps` (a step as one of the seats), `resets`, and `pool`. This
//! project's own.
#![tactic(auto)]

mod moves;
mod noting;
mod pool;
mod reading;
mod refusals;
mod resets;
mod steps;

pub use noting::Standing;
pub use pool::{QuietPool, quiet};
pub use refusals::{QuietCause, QuietRefused};
