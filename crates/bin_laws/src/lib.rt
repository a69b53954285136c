//! Laws of bins: a block in a bin is once in the list of its bin, or a seat is about to link it.
//!
//! That a block may be won before its putter has linked it, and what lists are then, is this project's own.
#![tactic(auto)]

pub mod laws;
