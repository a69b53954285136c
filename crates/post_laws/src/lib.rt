//! Laws of mail and orphans over the memory of a whole pool: what was given back comes to its slab's keeper.
//!
//! That slabs, objects, mail and orphans are told of one memory and one book at once is this project's own.
#![tactic(auto)]

pub mod laws;
