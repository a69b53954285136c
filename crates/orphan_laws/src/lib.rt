//! Laws of orphans: a slab that nobody keeps is in one chain or in one seat's hand, and has one keeper again.
//!
//! Its header tells its record meanwhile. This project's own.
#![tactic(auto)]

pub mod laws;
