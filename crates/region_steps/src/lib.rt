//! The office's steps: how a seat takes the office, enters a region that came, or gives one back.
//!
//! oneTBB's backend asks its callback for a region and links it into a list under a lock (`src/tbbmalloc/backend.cpp`,
//! `Backend::addNewRegion` and `genericPutBlock`). That one seat at a time has the office, that a region is a word in one
//! of 64 slots, and that a wall stands at its end, is this project's own.
#![tactic(auto)]

mod office;
#[cfg(test)]
mod tests;

pub use office::{OfficeAt, OfficeCall, OfficeEnd, OfficeNext};
