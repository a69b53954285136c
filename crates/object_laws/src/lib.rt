//! Laws of objects: the marks, the lists that objects are in, and what each step of each seat leaves of them.
//!
//! A unit's mark says who holds the object that begins there. This project's own.
#![tactic(auto)]

pub mod laws;
