//! Laws of blocks wherever they are: in bins, queued, in seats' hands, or at rest with one purpose.
//!
//! That bins and the queue are told of one memory and of one shadow of blocks with slabs and objects, and that no block
//! is lost between them, is this project's own.
#![tactic(auto)]

pub mod laws;
