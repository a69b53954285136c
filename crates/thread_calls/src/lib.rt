//! The calls of a trace as threads make them: which call of a line is a thread's own, which name it asks and binds, and
//! the word that stands for what a name is bound to.
//!
//! Modules: `words` (what a name's word stands for), `calls` (the call of a line) and `script` (which thread binds which
//! name, and how many lines are a thread's). This project's own.
#![tactic(auto)]

mod calls;
mod laws;
mod script;
mod words;

pub use calls::{OwnCall, Said, name_asked, name_bound, own_call, request_with, word_of};
pub use laws::words_are_read_back;
pub use script::{count_own, names_of};
pub use words::{NULL_WORD, place_of_word, word_of_place};
