//! Why a trace is refused.
ghost use Rattle.std.specs.Prelude.{◌≡◌};
ghost use Rattle.trace_reader.specs.Refusals.{refusal_kind};

use std::alloc::AllocError;

/// A refused line, counted from 1, and the kind of what is wrong with it, from 1 to 12. `docs/trace.md` has the kinds.
/// This project's own.
#[derive(Clone, Copy, Debug, PartialEq, Eq)]
pub struct TraceError {
    pub line: u32,
    pub kind: u8,
}

/// Why no trace was read: its first refused line, or memory ran out.
#[derive(Clone, Copy, Debug, PartialEq, Eq)]
pub enum TraceRefused {
    Bad(TraceError),
    NoMemory,
}

impl From<AllocError> for TraceRefused {
    ghost use Rattle.trace_reader.specs.declared.refusal.TraceRefused.TheVariants.{NoMemory};

    ghost from_gives = { λ _ refused. refused ≡ NoMemory };

    fn from(_error: AllocError) -> TraceRefused {
        TraceRefused::NoMemory
    }
}

/// What is wrong with a line. This project's own, as the numbers of the kinds are.
#[derive(Clone, Copy, Debug, PartialEq, Eq)]
pub enum Refusal {
    /// A word is missing, left over or unknown, or not spelled as its place asks. Kind 1.
    Spelling,
    /// A number is none, or is out of its range. Kind 2.
    Number,
    /// No earlier pool line has the pool. Kind 3.
    UnknownPool,
    /// No thread has the name. Kind 4.
    UnknownThread,
    /// No earlier line binds the name. Kind 5.
    UnboundName,
    /// An earlier line has bound the name. Kind 6.
    BoundBefore,
    /// A pool line does not make the next pool, or has an option twice. Kind 7.
    PoolOrder,
    /// A thread is named twice, or a line names threads after another or after a pool line. Kind 8.
    ThreadsAgain,
    /// More than 64 threads, 8 pools or 65536 lines. Kind 9.
    TooMany,
    /// More than 1024 bytes before the newline. Kind 10.
    TooLong,
    /// The last line has no newline. Kind 11.
    NoNewline,
    /// The form is not served. Kind 12.
    NotServed,
}

impl Refusal {
    /// The number of the kind.
    pub fn kind(self) -> u8
        ensures { result ≡ refusal_kind self }
    {
        match self {
            Refusal::Spelling => 1,
            Refusal::Number => 2,
            Refusal::UnknownPool => 3,
            Refusal::UnknownThread => 4,
            Refusal::UnboundName => 5,
            Refusal::BoundBefore => 6,
            Refusal::PoolOrder => 7,
            Refusal::ThreadsAgain => 8,
            Refusal::TooMany => 9,
            Refusal::TooLong => 10,
            Refusal::NoNewline => 11,
            Refusal::NotServed => 12,
        }
    }
}
