//! A pool of several seats as one machine, for one thread: one step of one seat at a time.
//!
//! A seat's local says which step comes next, the depot makes it, and what it found goes back to the local. So any
//! order of the seats' turns is a run of the pool. This project's own; the calls, and what they do, are those of
//! oneTBB's user pools (`src/tbbmalloc/frontend.cpp` and `backend.cpp`).
//!
//! Modules: `machine` (what a machine keeps, its making, and questions to it), `steps` (the step that comes next at a
//! seat), `turns` (calls that begin, and turns), `counts` (what is counted from words and seats), `resets` and
//! `endings`.
#![tactic(auto)]

mod counts;
mod endings;
mod machine;
mod resets;
mod steps;
mod turns;

pub use endings::ends;
pub use machine::PlainMachine;
pub use resets::Resetting;
