//! Looking at a place, ending the grant that was found there, giving an object back to a slab that another keeps, and
//! joining what was given back to the slab's private list.
//!
//! Giving back and joining are tbbmalloc's (`Block::freePublicObject`, `Block::privatizePublicFreeList`). The
//! mark of each object, and with it the looks and the ending of a grant, are this project's own.
//!
//! Modules: `looking`, `ending`, `posting` and `joining`.
#![tactic(auto)]

pub mod ending;
pub mod joining;
pub mod looking;
pub mod posting;
#[cfg(test)]
mod tests;

pub use ending::{EndAt, EndCall, EndNext};
pub use joining::{JoinAt, JoinCall, JoinNext};
pub use looking::{LookAt, LookCall, LookFor, LookNext};
pub use posting::{PostAt, PostCall, PostNext};
