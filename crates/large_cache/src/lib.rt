//! The cache of large blocks (a cache of freed large objects) over words: one cache bin for blocks of so many granules,
//! from 1 to 1023, as lists and numbers under a lock.
//!
//! The rules are those of a bin of oneTBB's large object cache (`src/tbbmalloc/large_objects.cpp`); `cache_ages` says
//! them of plain numbers, and its arithmetic is called here. That a bin is changed word by word under a lock, in this
//! order, is this project's own: there a bin's operations are gathered by one thread that makes them all.
//!
//! Jobs: `get` takes the newest block, `undo` takes a get that missed back, `keep` puts a block in, `sweep` is one bin's
//! part of a cleanup.
#![tactic(auto)]

mod get;
mod keep;
mod list;
mod sweep;
#[cfg(test)]
mod tests;
mod undo;

pub use get::{CacheCall, GetAt, GetNext, HitAt, Newest};
pub use keep::{KeepAt, KeepCall, KeepNext, Tail};
pub use sweep::{Cleanup, JudgeAt, SweepAt, SweepCall, SweepNext, Walk};
pub use undo::{UndoAt, UndoNext};
