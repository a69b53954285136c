//! Totals, leaks and the numbers of the cache, counted from the words of a pool and from what its seats keep.
//!
//! Nothing here is kept up to date: each call reads the pool anew, while nobody steps. Each byte of a live region is
//! counted once, under the holder that words and seats name; what no other holder has is in hand. This project's own.
//!
//! Modules: `reading` (how a pool is read), `middle` (what a seat in the middle of a call has begun and not ended),
//! `objects` (marks that name a grant), `leaking`, `chains` (lists that words link), `slabs`, `blocks`, `counting`
//! (the totals), and `caching`.
#![tactic(auto)]

mod blocks;
mod caching;
mod chains;
mod counting;
mod leaking;
mod middle;
mod objects;
mod reading;
mod slabs;
#[cfg(test)]
mod tests;

pub use caching::{cache, cache_items};
pub use counting::totals;
pub use leaking::leaks;
pub use middle::Amid;
pub use reading::{AtRest, Reading};
