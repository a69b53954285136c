//! Locks in single words, and lists under them that are linked both ways.
//!
//! Each job is a position, and what its step found leads to the next one. They follow oneTBB's
//! `src/tbbmalloc/Synchronize.h` (`MallocMutex`) and `src/tbbmalloc/backend.cpp` (`Bin::addBlock`, `Bin::removeBlock`).
//! That a lock names the seat that has it, and that a list begins and ends at a word of 0, are this project's own.
#![tactic(auto)]

pub mod insert;
pub mod lock;
pub mod remove;

pub use insert::{InsertAt, InsertNext};
pub use lock::{Lock, LockNext};
use pool_words::Word;
pub use remove::{RemoveAt, RemoveNext};

/// What a change of a list is about: the word of the list's first item, and the item that comes or leaves.
#[derive(Clone, Copy)]
pub struct ListCall {
    pub head: Word,
    pub item: u64,
}

#[cfg(test)]
mod tests;
