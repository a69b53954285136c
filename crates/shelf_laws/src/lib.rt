//! Laws of a pool and its cache of large blocks: what its bins have lies there, and no object lies in it.
//!
//! That a block which is put comes from the seat's hand, and one that leaves comes into it, is this project's own.
#![tactic(auto)]

pub mod laws;
