//! Reads a trace: the text that says what the threads of a replay do.
//!
//! A text is read whole or refused at its first refused line, with the first kind of what is wrong with it. The language
//! is this project's own; `docs/trace.md` says what it is.
//!
//! Modules: `trace` (a whole text: `read_trace`), `laws` (what holds of every trace that is read), `line` and `calls`
//! (the words of one line), `threads` and `options` (the two lines of any length), `slots` (one word in its place),
//! `keywords`, `names`, `numbers` and `words` (what the words are made of), `context` (what stands before a line), `acts`
//! and `refusal` (what reading gives).
#![tactic(auto)]

mod acts;
mod calls;
mod context;
mod keywords;
pub mod laws;
mod line;
mod names;
mod numbers;
mod options;
mod refusal;
mod slots;
mod threads;
mod trace;
mod words;

pub use acts::{Act, Forms, PoolOption, TraceCall, TraceLine, What};
pub use laws::{
    lines_are_numbered, names_are_bound_in_turn, numbers_are_names, places_are_read_back,
    plain_traces_have_one_shape, rows_are_read_back, traces_are_clear,
};
pub use numbers::read_number;
pub use pool_types::ThreadName;
pub use refusal::{Refusal, TraceError, TraceRefused};
pub use trace::{Trace, read_trace};
