//! Reads the words of a command line of `poolreplay`. This project's own.
//!
//! The first word names the command, and `clap` reads those behind it. Modules: `command` (the commands), `words` (the
//! words of a command line) and `laws` (that words are those of one command at most, and which forms are commands).
#![tactic(auto)]

mod command;
mod laws;
#[cfg(test)]
mod tests;
mod words;

pub use command::Command;
pub use laws::{forms_are_commands, words_are_clear};
pub use words::read_command;
