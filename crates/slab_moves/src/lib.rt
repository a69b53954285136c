//! Turns at slabs that begin and end, at the slab cache, and at the begin of a large object, as steps of the whole of a
//! pool.
//!
//! How it is stated is this project's own.
#![tactic(auto)]

pub mod laws;
