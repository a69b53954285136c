//! One seat's part of a pool: its heap, its call, and the step that comes next.
//!
//! A call is a run of steps, each on one word. `Local::next` names the next step, `Local::told` takes what it found;
//! all that lies between two steps is the local's own. The calls are those of oneTBB's user pools (`pool_malloc` and
//! its kin, `src/tbbmalloc/frontend.cpp`); that a call is a value that is stepped, and the order of its steps, are this
//! project's own.
//!
//! Modules: `frames` (what a local keeps), `begin` (how a call begins), `next` and `told` (the step that comes next,
//! and what follows from what it found), and for each part of a call where its jobs go on: `objects` (looks, ends and
//! answers), `slabs` (small objects), `large` (large objects and the cache), `backend` (asking for blocks, and putting
//! them), `leaving`, `resetting`; `rows` (the kind of step of each position).
#![tactic(auto)]

mod backend;
mod begin;
mod frames;
mod large;
mod leaving;
mod next;
mod objects;
mod resetting;
mod rows;
mod slabs;
mod told;

pub use frames::{
    Ask, At, Call, Fetch, LargeAt, Local, LocateAt, Object, OfficeFor, PutFor, Reset, ResetAt,
    ResetStage, Served, SmallAt, Stage, Sweep, Tried, Tries,
};
pub use rows::{is_made, row_of};
