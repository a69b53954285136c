//! What whole calls of a heap, and a thread's lines, granted and freed.
#![tactic(auto)]

pub mod laws;
