//! Slabs that nobody keeps: a seat that leaves makes its slabs unusable and pushes them on the chain of their
//! class; a seat that needs a slab takes the chain, adopts slabs from its front, and pushes back what it does
//! not need.
//!
//! tbbmalloc's `OrphanedBlocks` and `Block::privatizeOrphaned`. That the chain is taken whole, and that it is
//! linked by the slabs' next words, is this project's own.
//!
//! Modules: `adopting` and `leaving`.
#![tactic(auto)]

pub mod adopting;
pub mod leaving;
#[cfg(test)]
mod tests;

pub use adopting::{AdoptAt, AdoptCall, AdoptNext};
pub use leaving::{LeaveAt, LeaveCall, LeaveNext};
