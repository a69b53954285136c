//! Laws of the office: one seat at a time is there, and regions come and leave by its steps alone.
//!
//! What is there, and which regions the words say, is this project's own.
#![tactic(auto)]

pub mod laws;
