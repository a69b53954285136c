//! What the programs that run a trace have in common, whatever runs it: the words that they are called with, what they
//! read, how they end, what they write then, and what they tell their user.
//!
//! Modules: `words` (the words behind a program's name), `kept` (a source that keeps what was read), `outcome`
//! (statuses, and what is due with them), `texts` (what is written in place of a report), `writing` (what is due goes to
//! a sink) and `messages` (the line on standard error). This project's own.
#![tactic(auto)]

mod kept;
mod messages;
mod outcome;
mod texts;
mod words;
mod writing;

pub use kept::Kept;
pub use messages::message;
pub use outcome::{Output, Reply, Status, refused, silent, spoken};
pub use texts::{bad_words, steps_out_text};
pub use words::words_of;
pub use writing::write_output;
