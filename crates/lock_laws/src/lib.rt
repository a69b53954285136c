//! Laws of locks in single words, and of the lists under them that are linked both ways.
//!
//! A lock's word names the seat that has it, as the seat's local says; while it has it, the seat puts an item in front
//! of the lock's list or takes one out, one store after the other. This project's own.
#![tactic(auto)]

pub mod laws;
