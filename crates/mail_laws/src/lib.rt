//! Laws of mail: which slabs are owed, boxed and fetched, and what their public and next words are then.
//!
//! A slab to which something was given back is mailed once to its keeper. This project's own.
#![tactic(auto)]

pub mod laws;
