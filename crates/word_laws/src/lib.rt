//! Laws of words: the words of a pool by kind and index, in place of a row, and what an action makes of them.
//!
//! All laws above speak of this memory: a word is named by its kind and index, never by its place in the row. This
//! project's own.
#![tactic(auto)]

pub mod laws;
