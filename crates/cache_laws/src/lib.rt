//! Laws of the cache of large blocks: each job at a bin, from its winning the lock to its freeing it, is one step of
//! the bin's rules, whatever other seats do.
//!
//! What a bin is, and what its words say at each position, is this project's own.
#![tactic(auto)]

pub mod laws;
