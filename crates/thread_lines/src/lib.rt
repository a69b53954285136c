//! A thread's lines of a trace, over heaps of pools that threads share.
//!
//! Each thread runs its own lines, in order, on its own heaps. What a line's call got goes to the lines that ask for it
//! over a board of names; a name that another thread has not bound yet is waited for.
//!
//! Modules: `gate` (what a thread passes before each call), `asking` (a request to a heap) and `worker` (a thread's
//! lines, one after another). This project's own.
#![tactic(auto)]

mod asking;
mod gate;
mod worker;

pub use gate::{Gate, OpenGate};
pub use worker::{Worker, serve, serve_all};
