//! Checks of a pool's machine by running it: worked calls, waits, ends, and random runs of which each turn is looked
//! at.
//!
//! The machine's contracts say what each step does; that steps in this order serve a call, and that each granule has
//! one place after each turn, is tried here. All of it is tests, in a crate of their own, since a crate with tests is
//! proved twice. This project's own.
#![tactic(auto)]

#[cfg(test)]
mod tests;
