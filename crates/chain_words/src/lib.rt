//! Pushing an item onto a chain that others push on as well, and take whole.
//!
//! The chain's head is one word. A push links the item to the head that it found, and then exchanges the head;
//! where another push or a taking came in between, it links the item again, to what it now found. tbbmalloc
//! pushes so on `publicFreeList`, on mailboxes and on the queue of blocks that wait to be joined. That a step
//! of it is a value is this project's own.
#![tactic(auto)]

pub mod pushing;
#[cfg(test)]
mod tests;

pub use pushing::{PushAt, PushCall, PushNext};
