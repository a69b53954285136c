//! The values that every crate of a pool speaks of, and the traits by which a pool's programs reach the outside.
//!
//! Modules: `geometry` (how a pool is cut), `values` (places, requests, answers), `policy` (what a pool is made with),
//! `endings` (what its reset and its destroy answer), `limits`, `rows` (the table of atomic steps), `texts` (what
//! traces and reports have in common), `outside` (a source and a sink of bytes), `transfers` (reading and writing all
//! of it), `raw` (where regions come from), and the stand-ins `memory`, `scripted` and `standard`.
#![tactic(auto)]

pub mod endings;
pub mod geometry;
pub mod laws;
pub mod limits;
pub mod memory;
pub mod outside;
pub mod policy;
pub mod raw;
pub mod rows;
pub mod scripted;
pub mod standard;
#[cfg(test)]
mod tests;
pub mod texts;
pub mod transfers;
pub mod values;

pub use endings::{Destroyed, ResetError};
pub use laws::each_row_is_listed;
pub use memory::{MemorySink, MemorySource};
pub use outside::{Failed, Sink, Source};
pub use policy::{CreateError, Limits, Policy, RegionRec, Which, check};
pub use raw::Raw;
pub use rows::{Keeper, KeeperChange, Row};
pub use scripted::ScriptedRaw;
pub use standard::{StandardSink, StandardSource};
pub use texts::{ThreadName, Threads, add_place};
pub use transfers::{ReadError, read_all, write_all};
pub use values::{
    Answer, Awaited, Found, Grant, InCall, Leak, Looks, NullCause, Place, Region, Request, Turn,
};
