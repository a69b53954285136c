//! The backend's bins of free blocks: putting a block into one, taking one out, the scan for a block that fits, and the
//! cut of a piece from it.
//!
//! It follows oneTBB's `src/tbbmalloc/backend.cpp` (`Bin`, `IndexedBins::findBlock`, `Backend::splitBlock`). That a bin
//! has blocks of one length, that the scan looks at the bins in order and notes what it could not win, and the order of
//! all stores are this project's own.
#![tactic(auto)]

pub mod bin;
pub mod blocks;
pub mod cut;
pub mod laws;
pub mod scan;

pub use bin::{BinAt, BinCall, BinJob, BinNext};
pub use blocks::{Block, Want, bin_of};
pub use cut::{CutAt, CutCall, CutNext};
pub use scan::{ScanAt, ScanCall, ScanNext, ScanStep};

#[cfg(test)]
mod tests;
