//! What a command line asks for.

/// A command.
#[derive(Clone, Copy, Debug, PartialEq, Eq)]
pub enum Command {
    /// The trace on standard input is run, and its report written, with what each step moves or without it.
    Replay { moves: bool },
    /// The trace that these numbers make is run, and its summary written.
    Gen { seed: u64, threads: u8, calls: u32 },
}
