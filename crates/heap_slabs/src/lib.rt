//! What one seat's heap keeps by itself, in no word that others see: the slabs that it keeps, by class, each with its
//! record; the slabs in its cache; and the orphans that it has to push back.
//!
//! It follows oneTBB's `src/tbbmalloc/frontend.cpp` (`TLSData`: its bins of blocks, and `FreeBlockPool`, the cache of
//! slabs with its two marks). That a record has units in place of addresses, and that a slab is found by its first
//! granule, are this project's own.
//!
//! Each call answers for every argument and changes nothing where there is nothing to change. No call but those named
//! `make` takes memory.
#![tactic(auto)]

pub mod cache;
pub mod heap;
pub mod laws;
pub mod records;
pub mod roll;
pub mod slabs;

pub use cache::SlabCache;
pub use heap::{Heap, Leaving};
pub use records::HeapSlab;
pub use roll::Roll;
pub use slabs::{Slabs, Wanted};

#[cfg(test)]
mod tests;
