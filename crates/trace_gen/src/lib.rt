//! Makes a trace from a seed, a number of threads and a number of calls. This project's own.
//!
//! Modules: `draws` (the numbers that are drawn), `lines` (the texts of a trace's lines), `making` (the calls, one after
//! another) and `whole` (all of it).
#![tactic(auto)]

mod draws;
mod lines;
mod making;
#[cfg(test)]
mod tests;
mod whole;

pub use whole::generated;
