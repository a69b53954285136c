//! The two guards of a block, and winning both.
//!
//! A free block has a guard at its begin and one behind its end, each with its granules. Whoever takes the block, for
//! use or to join it to a neighbour, wins one guard and then the other, and gives the first back where the second is
//! lost. It follows oneTBB's `src/tbbmalloc/backend.cpp` (`GuardedSize`, `FreeBlock::tryLockBlock`). That a guard tells
//! the granules in a word of its own is this project's.
#![tactic(auto)]

pub mod win;

pub use win::{Side, Taking, WinAt, WinCall, WinNext};

#[cfg(test)]
mod tests;
