//! The lines of a trace on one pool: a call, turns to an answer or to a kind of step, a reset, and the end.
//!
//! A pool of a trace is a `PlainMachine` over a scripted callback, with the call that each seat began last; a line makes
//! turns of it, and what each turn moves is written as it comes. This project's own.
//!
//! Modules: `pool` (a trace's pool, its making, and calls that begin), `turns` (turns of a seat, to where a line stops),
//! `lines` (what a line comes to), `resets`, `pool_lines` (each line that leaves its pool standing) and `endings`.
#![tactic(auto)]

mod endings;
mod lines;
mod pool;
mod pool_lines;
mod resets;
mod turns;

pub use endings::destroy;
pub use lines::{Came, LineAt};
pub use pool::TracePool;
pub use pool_lines::PoolLine;
pub use turns::{Stop, Until};
