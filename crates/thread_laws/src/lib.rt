//! Laws of pools that threads share: what laws over runs say of a pool's table at any moment.
//!
//! How it is stated is this project's own.
#![tactic(auto)]

pub mod laws;
