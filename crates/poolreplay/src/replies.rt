//! What is due for a trace. This project's own.
ghost use Rattle.std.specs.Prelude.{◌≡◌, Ok, Err, true, false};
ghost use Rattle.trace_reader.specs.Text.{ReadsTrace};
ghost use Rattle.poolreplay.specs.Plain.{is_plain};
ghost use Rattle.poolreplay.specs.Replay.{IsReply, IsSumReply, is_listed};
ghost use Rattle.program_edge.specs.Outcome.{Says, output_text};
ghost use Rattle.program_edge.specs.Texts.{steps_out_text};
ghost use Rattle.poolreplay.specs.Summaries.{summary_text};
ghost use Rattle.program_edge.specs.declared.outcome.Status.{Status};

use crate::plain::is_plain;
use crate::run::run_trace;
use crate::texts::summary_text;
use program_edge::{Output, Reply, Status, refused, silent, spoken, steps_out_text};
use std::alloc::Global;
use trace_reader::{Forms, Trace, TraceRefused, read_trace};
use trace_runs::{RunError, Summary, run_lines, sum_lines};

/// Whether whole calls over lists serve the trace.
fn is_listed(moves: bool, trace: &Trace) -> bool
    ensures { result ≡ is_listed moves trace.now }
{
    !moves && is_plain(trace)
}

/// The report of a plain trace.
fn reply_by_lists(alloc: Global, bytes: &[u8], trace: &Trace) -> Reply
    requires spelled { ReadsTrace Forms.All bytes.now (Ok trace.now) }
    requires plain { is_plain trace.now ≡ true }
    ensures { IsReply false bytes.now result.status (output_text result.output) }
{
    match run_trace(alloc, trace) {
        Ok(report) => Reply {
            status: Status::Done,
            output: Output::Whole(report),
        },
        Err(_) => silent(alloc, Status::NoMemory),
    }
}

/// That the line is out of turns.
fn reply_to_out(alloc: Global, line: u32) -> Reply
    ensures { Says (Status.StepsOut line) (steps_out_text line) result.status (output_text result.output) }
{
    spoken(
        alloc,
        Status::StepsOut { line },
        steps_out_text(alloc, line),
    )
}

/// The report of another trace.
fn reply_by_run(alloc: Global, moves: bool, bytes: &[u8], trace: &Trace) -> Reply
    requires spelled { ReadsTrace Forms.All bytes.now (Ok trace.now) }
    requires other { is_listed moves trace.now ≡ false }
    ensures { IsReply moves bytes.now result.status (output_text result.output) }
{
    match run_lines(alloc, trace, moves) {
        Ok(report) => Reply {
            status: Status::Done,
            output: Output::Whole(report),
        },
        Err(RunError::StepsOut { line }) => reply_to_out(alloc, line),
        Err(RunError::NoMemory) => silent(alloc, Status::NoMemory),
    }
}

/// The status and the text that are due for a trace that was read.
fn reply_to_trace(alloc: Global, moves: bool, bytes: &[u8], trace: &Trace) -> Reply
    requires { ReadsTrace Forms.All bytes.now (Ok trace.now) }
    ensures { IsReply moves bytes.now result.status (output_text result.output) }
{
    if is_listed(moves, trace) {
        reply_by_lists(alloc, bytes, trace)
    } else {
        reply_by_run(alloc, moves, bytes, trace)
    }
}

/// The status and the text that are due for bytes that were read.
pub fn reply_to(alloc: Global, moves: bool, bytes: &[u8]) -> Reply
    ensures { IsReply moves bytes.now result.status (output_text result.output) }
{
    match read_trace(alloc, bytes, Forms::All) {
        Ok(trace) => reply_to_trace(alloc, moves, bytes, &trace),
        Err(TraceRefused::Bad(error)) => refused(alloc, error),
        Err(TraceRefused::NoMemory) => silent(alloc, Status::NoMemory),
    }
}

/// The text of a summary.
fn reply_to_summary(alloc: Global, summary: Summary) -> Reply
    ensures { Says Status.Done (summary_text summary) result.status (output_text result.output) }
{
    spoken(alloc, Status::Done, summary_text(alloc, summary))
}

/// The summary of a trace that was read.
fn sum_trace(alloc: Global, bytes: &[u8], trace: &Trace) -> Reply
    requires { ReadsTrace Forms.All bytes.now (Ok trace.now) }
    ensures { IsSumReply bytes.now result.status (output_text result.output) }
{
    match sum_lines(alloc, trace) {
        Ok(summary) => reply_to_summary(alloc, summary),
        Err(RunError::StepsOut { line }) => reply_to_out(alloc, line),
        Err(RunError::NoMemory) => silent(alloc, Status::NoMemory),
    }
}

/// The status and the text that are due for bytes that are to be summed.
pub fn sum_up(alloc: Global, bytes: &[u8]) -> Reply
    ensures { IsSumReply bytes.now result.status (output_text result.output) }
{
    match read_trace(alloc, bytes, Forms::All) {
        Ok(trace) => sum_trace(alloc, bytes, &trace),
        Err(TraceRefused::Bad(error)) => refused(alloc, error),
        Err(TraceRefused::NoMemory) => silent(alloc, Status::NoMemory),
    }
}
