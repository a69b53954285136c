//! The words and the office of a pool, for one thread: the steps that seats make on them, one after another.
//!
//! Every step is one action on one word, or takes the office out of its slot or gives it back. With the step that takes
//! a region's word out, the region is passed to the callback. This project's own.
#![tactic(auto)]

mod depot;
#[cfg(test)]
mod tests;

pub use depot::Depot;
