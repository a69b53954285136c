//! What the lines of a trace write and count while they are run: the report, the moves in it, and how many calls came to
//! what. This project's own.
//!
//! Modules: `book` (the report so far, and counts), `moves` (what a turn moved, as lines of the report) and `left` (what
//! became of the regions of a pool that was destroyed).
#![tactic(auto)]

mod book;
mod left;
mod moves;

pub use book::{Book, Counts};
