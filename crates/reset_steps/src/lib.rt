//! The jobs of a reset that no call has: a reset frees what is held, empties what keeps blocks, and makes each region
//! one free block.
//!
//! What it does is that of oneTBB's `pool_reset` (`MemoryPool::reset` of `src/tbbmalloc/frontend.cpp` and
//! `Backend::reset` of `backend.cpp`), which drops all lists of slabs, of cached and of large blocks, and builds the
//! bins anew over the regions. That a reset goes by the same steps as calls do is this project's own.
//!
//! Jobs: `strip` frees the objects of a slab, `seek` finds the region whose number comes next, `evict` takes a
//! region's large objects, `clear` brings a cache bin back to its first state, `unqueue` takes the queue's blocks,
//! `unite` takes all blocks of a region out of their bins.
#![tactic(auto)]

pub mod clear;
pub mod evict;
pub mod seek;
pub mod strip;
#[cfg(test)]
mod tests;
pub mod unite;
pub mod unqueue;

pub use clear::{ClearAt, ClearCall, ClearNext, Number};
pub use evict::{EvictAt, EvictCall, EvictNext};
pub use seek::{Seek, SeekAt, SeekNext};
pub use strip::{StripAt, StripNext};
pub use unite::{UniteAt, UniteCall, UniteNext};
pub use unqueue::{UnqueueAt, UnqueueNext};
