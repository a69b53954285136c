//! Laws of slabs: one slab by its lists, and what all seats' heaps keep of their slabs.
//!
//! A slab's record is its keeper's, or its header's while nobody keeps it. This project's own.
#![tactic(auto)]

pub mod laws;
