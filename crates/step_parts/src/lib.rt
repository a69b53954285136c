//! What each step of a pool moves: which bytes go from which holder to which, and which slab from which keeper to
//! which.
//!
//! A step moves at the moment at which it writes its word. What it moves follows from the local that makes it and from
//! the words before it. oneTBB's tbbmalloc has no such thing: this project's own.
//!
//! Modules: where each kind of position says what its step moves, `objects`, `slabs`, `backend`, `large` (large
//! objects and their cache), `office` and `resets`, and `positions` (any position); `moves` (a step's move, whole),
//! `journal` (its entries), `tallies` (totals after it) and `laws`.
#![tactic(auto)]

mod backend;
mod journal;
mod large;
pub mod laws;
mod moves;
mod objects;
mod office;
mod positions;
mod resets;
mod slabs;
mod tallies;
#[cfg(test)]
mod tests;

pub use journal::{Journal, StepName, looks_at_bin};
pub use moves::Moves;
pub use positions::moved_by;
pub use tallies::add_parts_to;
