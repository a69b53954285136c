//! What a replay does with a line of a trace: which pool it makes, what it asks of one, and what it reports.
//!
//! Modules: `pools` (the policy and the limits that a pool line's options make, and how the making is judged), `places`
//! (what names stand for, and so what a call asks) and `entries` (what a line and a pool's end report). All of it is
//! this project's own.
#![tactic(auto)]

mod entries;
mod places;
mod pools;
#[cfg(test)]
mod tests;

pub use entries::{add_entry, add_pool_end};
pub use places::Places;
pub use pools::{judge_pool, made_entry, pool_limits, pool_policy};
