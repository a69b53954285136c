//! Laws of a whole pool: what each block is used for, and that no two objects overlap.
//!
//! That guards, slabs and objects are told of one memory at once, and that each block at rest has one purpose, is this
//! project's own.
#![tactic(auto)]

pub mod laws;
