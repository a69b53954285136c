//! Who holds each byte of a pool, which moves from one holder to another are lawful, and what a move changes.
//!
//! A partition gives each byte of each live region of the pool exactly one holder. `Partition::apply` judges a move and
//! makes it, or says which byte is the first that keeps it from being made. `Partition::totals` counts.
#![tactic(auto)]

pub mod holders;
pub mod journal;
pub mod laws;
pub mod moves;
pub mod partition;
mod stretches;
pub mod totals;

pub use holders::{Holder, HolderKind};
pub use journal::Journaled;
pub use moves::{Move, Part, Range};
pub use partition::{ApplyError, Partition};
pub use totals::Totals;
