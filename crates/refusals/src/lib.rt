//! Says in plain words what is wrong with a trace's line, and what to do about it. Nothing of it is claimed but that it
//! is safe and ends: a report never depends on it. This project's own.
//!
//! Modules: `lines` (a line of a text and its words), `spelling` (what is wrong with the letters of a line), `forms` (the
//! forms of lines), `numbers` (what is wrong with a number), `places` (where the word stands that is refused), `reasons`
//! (why, by the kind) and `told` (the whole sentence).
#![tactic(auto)]

mod forms;
mod lines;
mod numbers;
mod places;
mod reasons;
mod spelling;
#[cfg(test)]
mod tests;
mod told;

pub use forms::USAGE;
pub use told::tell_refusal;
