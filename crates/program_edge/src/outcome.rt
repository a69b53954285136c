//! How a program ends, and what is due then. This project's own.
ghost use Rattle.std.specs.Prelude.{◌≡◌, [], IfOk, OnErr};
ghost use Rattle.program_edge.specs.Outcome.{Says, output_text, status_number};
ghost use Rattle.program_edge.specs.Texts.{refused_text};
ghost use Rattle.program_edge.specs.declared.outcome.Status.{Status};

use crate::texts::refused_text;
use report_text::Report;
use std::alloc::Global;
use std::io;
use trace_reader::TraceError;

/// How a program ended.
#[derive(Clone, Copy, Debug, PartialEq, Eq)]
pub enum Status {
    /// The trace was run, and its report or summary is written.
    Done,
    /// The words are no command line.
    BadWords,
    /// The first line that is refused, counted from 1, and the kind of what is wrong with it.
    BadTrace { line: u32, kind: u8 },
    /// The source has more bytes than a trace may have.
    TooLong,
    /// A read failed.
    ReadFault,
    /// A write failed; the front of what was to be written is written.
    WriteFault,
    /// The line of this number made the most turns that a line of a replay makes, and none ended it.
    StepsOut { line: u32 },
    /// Memory ran out; nothing is written.
    NoMemory,
}

impl Status {
    /// The number that the process ends with.
    pub fn number(self) -> u8
        ensures { result ≡ status_number self }
    {
        match self {
            Status::Done => 0,
            Status::BadWords => 2,
            Status::BadTrace { .. } => 3,
            Status::TooLong => 4,
            Status::ReadFault => 5,
            Status::WriteFault => 6,
            Status::StepsOut { .. } => 7,
            Status::NoMemory => 8,
        }
    }
}

/// What is to be written: a text, or a report and then `end`.
#[derive(Drop)]
pub enum Output {
    Words(Vec<u8>),
    Whole(Report),
}

/// A status, and what is due with it.
#[derive(Drop)]
pub struct Reply {
    pub status: Status,
    pub output: Output,
}

/// A status with no text.
pub fn silent(alloc: Global, status: Status) -> Reply
    ensures status { result.status ≡ status }
    ensures text { output_text result.output ≡ [] }
{
    Reply {
        status,
        output: Output::Words(Vec::new(alloc)),
    }
}

/// The status with this text, or that memory ran out.
pub fn spoken(alloc: Global, status: Status, text: io::Result<Vec<u8>>) -> Reply
    ensures ok { IfOk text (λ words. Says status words.items result.status (output_text result.output)) }
    ensures err { OnErr text ((result.status ≡ Status.NoMemory) × (output_text result.output ≡ [])) }
{
    match text {
        Ok(words) => Reply {
            status,
            output: Output::Words(words),
        },
        Err(_) => silent(alloc, Status::NoMemory),
    }
}

/// The refusal of a line, or that memory ran out.
pub fn refused(alloc: Global, error: TraceError) -> Reply
    ensures { Says (Status.BadTrace error.line error.kind) (refused_text error.line error.kind) result.status
        (output_text result.output) }
{
    let status = Status::BadTrace {
        line: error.line,
        kind: error.kind,
    };
    spoken(alloc, status, refused_text(alloc, error))
}
