//! Slabs that are about to begin: each is named by the seat that begins it, so that one in a seat's hand has no mail.
//!
//! How it is stated is this project's own.
#![tactic(auto)]

pub mod laws;
