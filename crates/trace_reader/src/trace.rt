//! Reads a whole trace.
ghost use Rattle.std.specs.Prelude.{◌≡◌, ◌<◌, ◌≤◌, ◌+◌, ◌^◌, ℕ, List, map, length, IfOk, true, false};
ghost use Rattle.trace_reader.specs.Contexts.{context_of};
ghost use Rattle.trace_reader.specs.Text.{ReadsLine, ReadsTrace, is_skipped};
ghost use Rattle.trace_reader.specs.Steps.{AddsLine, IsOutcome};

use crate::acts::{Act, Forms, PoolOption, TraceLine};
use crate::context::Context;
use crate::line::read_words;
use crate::refusal::{Refusal, TraceError, TraceRefused};
use crate::words::{parted_at, split_parts};
use arrayvec::ArrayVec;
use pool_types::limits::{MOST_LINE_BYTES, MOST_LINES, MOST_THREADS};
use pool_types::{ThreadName, Threads};
use std::alloc::{AllocError, Global};

/// A trace that was read: the names of its threads, in their order, the options of its pools, by the pools' numbers, and
/// what its lines do.
#[derive(Drop)]
pub struct Trace {
    pub names: ArrayVec<ThreadName, MOST_THREADS>,
    pub pools: Vec<ArrayVec<PoolOption, 9>>,
    pub lines: Vec<TraceLine>,
}

impl Trace {
    /// The names of the threads, in the order of the line that names them.
    pub fn threads(&self) -> &[ThreadName]
        ensures { result.now ≡ self.now.names.items }
    {
        self.names.as_slice()
    }

    /// The options of the pools, by the pools' numbers.
    pub fn pools(&self) -> &[ArrayVec<PoolOption, 9>]
        ensures { result.now ≡ self.now.pools.items }
    {
        self.pools.as_slice()
    }

    /// What the lines do. A line that is skipped is none of them.
    pub fn lines(&self) -> &[TraceLine]
        ensures { result.now ≡ self.now.lines.items }
    {
        self.lines.as_slice()
    }
}

impl Threads for Trace {
    ghost use Rattle.pool_types.specs.Texts.{names_of};

    ghost names = { λ trace. names_of trace.names.items };

    fn threads(&self) -> &[ThreadName] {
        self.names.as_slice()
    }
}

/// Whether the line is empty or begins with `#`.
fn is_skipped(text: &[u8]) -> bool
    ensures { result ≡ is_skipped text.now }
{
    match text {
        [] => true,
        [first, ..] => *first == b'#',
    }
}

/// The lines that were read so far, and what stands before the next.
#[derive(Drop)]
struct Reading {
    context: Context,
    lines: Vec<TraceLine>,
}

impl Reading {
    /// Reads one more line, or says what is wrong with it. `words` is room for the words of a line.
    fn add<'a>(
        &mut self,
        words: &mut Vec<&'a [u8]>,
        forms: Forms,
        number: u32,
        text: &'a [u8],
    ) -> Result<Option<Refusal>, AllocError>
        requires { self.old.context.count < number }
        ensures { IfOk result (λ refused. AddsLine forms number text.now (context_of self.old.context) self.old.lines.items refused
            (context_of self.new.context) self.new.lines.items) }
    {
        if MOST_LINE_BYTES < text.len() {
            return Ok(Some(Refusal::TooLong));
        }
        if MOST_LINES < number {
            return Ok(Some(Refusal::TooMany));
        }
        if is_skipped(text) {
            return Ok(None);
        }
        split_parts(b' ', text, words)?;
        match read_words(forms, &self.context, words.as_slice()) {
            Ok(act) => {
                self.context.enter(words.as_slice(), &act)?;
                self.lines.push(TraceLine { line: number, act })?;
                Ok(None)
            }
            Err(refusal) => Ok(Some(refusal)),
        }
    }

    /// What was read.
    fn into_trace(self) -> Trace
        ensures names { result.names ≡ self.context.names }
        ensures pools { result.pools ≡ self.context.pools }
        ensures lines { result.lines ≡ self.lines }
    {
        let Reading { context, lines } = self;
        let Context {
            names,
            pools,
            bound: _bound,
            count: _,
        } = context;
        Trace {
            names,
            pools,
            lines,
        }
    }
}

/// All the lines, or the first that is refused.
#[derive(Drop)]
enum Outcome {
    AllRead(Trace),
    FirstRefused(u32, Refusal),
}

/// Reads lines one after another, to the end or to the first that is refused.
fn read_lines(alloc: Global, forms: Forms, bytes: &[u8]) -> Result<Outcome, AllocError>
    ensures { IfOk result (λ outcome. IsOutcome forms bytes.now outcome) }
{
    let mut reading = Reading {
        context: Context::new(alloc),
        lines: Vec::new(alloc),
    };
    let mut words = Vec::new(alloc);
    let mut number = 1;
    let mut rest = bytes;
    while let Some((text, more)) = parted_at(b'\n', rest) {
        if let Some(refusal) = reading.add(&mut words, forms, number, text)? {
            return Ok(Outcome::FirstRefused(number, refusal));
        }
        number += 1;
        rest = more;
    }
    if !rest.is_empty() {
        return Ok(Outcome::FirstRefused(number, Refusal::NoNewline));
    }
    Ok(Outcome::AllRead(reading.into_trace()))
}

/// Reads a whole trace, of the forms that are served, in one pass. Bad is its first refused line, with the first kind of
/// what is wrong with it; what stands behind that line is not read.
pub fn read_trace(alloc: Global, bytes: &[u8], forms: Forms) -> Result<Trace, TraceRefused>
    ensures { ReadsTrace forms bytes.now result }
{
    match read_lines(alloc, forms, bytes)? {
        Outcome::AllRead(trace) => Ok(trace),
        Outcome::FirstRefused(line, refusal) => Err(TraceRefused::Bad(TraceError {
            line,
            kind: refusal.kind(),
        })),
    }
}

#[cfg(test)]
mod tests;
