//! Turns of a local at an object: a look, the end of a grant, a post, a look-up of a region, and a grant. Each is
//! steps of the whole of a pool, behind which the local's next position is there.
//!
//! How it is stated is this project's own.
#![tactic(auto)]

pub mod laws;
