//! The mailboxes of a pool: whoever gave the first object back to a slab mails the slab to its keeper, and the
//! keeper takes all that was mailed by one swap.
//!
//! tbbmalloc's `MailBox` (`Block::freePublicObject`, `Bin::getPrivatizedFreeListBlock`). That a mailbox is
//! taken whole is this project's own.
//!
//! Modules: `mailing` (a slab into its keeper's mailbox) and `boxes` (a mailbox taken, slab by slab).
#![tactic(auto)]

pub mod boxes;
pub mod mailing;
#[cfg(test)]
mod tests;

pub use boxes::{BoxAt, BoxCall, BoxNext};
pub use mailing::{MailAt, MailCall, MailNext, slab_push};
