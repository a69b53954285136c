//! A board of names: each name's word is stored once, by the thread that binds it, and any thread reads it.
//!
//! A word is 0 while its name is unset. A thread binds the names that are its own in their order, so what it stores goes
//! into a word that is 0, and what was seen of a name once stays so. A thread that needs a name which is unset waits for
//! it. This project's own.
#![tactic(auto)]

mod board;
mod rule;
#[cfg(test)]
mod tests;

pub use board::Board;
pub use rule::{BoardView, Bound, Cursor, Names, Pen, Sheet};
