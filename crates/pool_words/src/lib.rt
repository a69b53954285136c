//! The atomic words of a pool, where each lies in one row of numbers, and what one atomic step makes of them.
//!
//! All that threads share of a pool, but for the callbacks behind its office, is this row: one number a word,
//! of thirty kinds. The words of objects, slabs, blocks, bins and the cache of large objects are those that
//! oneTBB's tbbmalloc keeps in memory and in fields; that they are numbered words in a row is this project's
//! own.
//!
//! Modules: `words` (the kinds of word, and where each lies) and `actions` (the atomic steps, and what they find).
#![tactic(auto)]

pub mod actions;
#[cfg(test)]
mod tests;
pub mod words;

pub use actions::{Action, OfficeJob, Seen, finds, performed, value};
pub use words::{Key, Word};
