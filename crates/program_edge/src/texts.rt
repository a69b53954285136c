//! The texts of one line that are written in place of a report. This project's own.
ghost use Rattle.std.specs.Prelude.{◌≡◌, IfOk, codes};
ghost use Rattle.program_edge.specs.Texts.{refused_text, steps_out_text};

use std::alloc::Global;
use std::io::{self, Write};
use trace_reader::TraceError;

/// The text for words that are no command line. An error is want of memory alone.
pub fn bad_words(alloc: Global) -> io::Result<Vec<u8>>
    ensures { IfOk result (λ text. text.items ≡ codes "bad words\n") }
{
    let mut text = Vec::new(alloc);
    text.write_all(b"bad words\n")?;
    Ok(text)
}

/// The text for a refused line.
pub(crate) fn refused_text(alloc: Global, error: TraceError) -> io::Result<Vec<u8>>
    ensures { IfOk result (λ text. text.items ≡ refused_text error.line error.kind) }
{
    let mut text = Vec::new(alloc);
    writeln!(text, "bad trace line {} kind {}", error.line, error.kind)?;
    Ok(text)
}

/// The text for a line that is out of turns. An error is want of memory alone.
pub fn steps_out_text(alloc: Global, line: u32) -> io::Result<Vec<u8>>
    ensures { IfOk result (λ text. text.items ≡ steps_out_text line) }
{
    let mut text = Vec::new(alloc);
    writeln!(text, "steps out line {line}")?;
    Ok(text)
}
