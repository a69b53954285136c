//! Giving a block back to the backend: joining it to its free neighbours, and the queue of blocks that a put could not
//! finish.
//!
//! It follows oneTBB's `src/tbbmalloc/backend.cpp` (`Backend::doCoalesc`, `CoalRequestQ`,
//! `Backend::coalescAndPutList`). That a put waits for no neighbour, looks a second time at a region's ends, and the
//! order of all steps are this project's own.
#![tactic(auto)]

pub mod drain;
pub mod put;

pub use drain::{DrainAt, DrainCall, DrainNext};
pub use put::{Beside, PutAt, PutCall, PutNext, PutStep};

#[cfg(test)]
mod tests;
