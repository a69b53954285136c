//! Pools on real atomic words: each seat's step is one atomic operation on a table that threads share.
//!
//! The rule of the table is that its words, its office and its seats are a state that a run comes to (`step_runs`), and
//! nothing more. So whatever holds of all runs holds of threads, and no step owes a proof of its own. This project's
//! own.
#![tactic(auto)]

mod pool;
mod rule;
mod seat;
mod steps;

pub use pool::Shared;
pub use rule::{Note, Plan, Ruled, View};
pub use seat::DriverSeat;
pub use steps::{Place, Slot, Top, Turning};
