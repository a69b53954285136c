//! Laws of guards: a block is won whole or given back, and what is in a seat's hand stays there.
//!
//! What stands behind a guard, and that guards alone tell blocks, is this project's own.
#![tactic(auto)]

pub mod laws;
