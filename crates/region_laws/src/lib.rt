//! Laws of a pool and its regions: blocks lie just in the regions that the office's words say.
//!
//! When a region becomes a block, and that it goes as one, is this project's own.
#![tactic(auto)]

pub mod laws;
