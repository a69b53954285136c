//! Pools made quiet with their heaps in any order.
//!
//! `quiet_pool` wants each heap at the place of its number; here they are put there first, in the list that they came
//! in. This project's own.
#![tactic(auto)]

mod ordering;

pub use ordering::quiet_in_any_order;
