//! What each line reports. This project's own.
ghost use Rattle.std.specs.Prelude.{◌≡◌, ℕ, ◌+◌, ◌<◌, Some, length, slice_get, slice_set, take, OnOk};
ghost use Rattle.thread_calls.specs.Script.{count_own};
ghost use Rattle.trace_reader.specs.declared.acts.TraceLine.{TraceLine};
ghost use Rattle.thread_runs.specs.Gathering.{said_by};
ghost use Rattle.thread_runs.specs.Telling.{ActTells, AreSaid, AreTold, IsNextOf, Reports, said_entry};
ghost use Rattle.thread_runs.specs.Traces.{IsWithin};

use report_text::{NoMemory, Report, ReportEntry};
use std::alloc::{AllocError, Global};
use thread_calls::Said;
use trace_calls::{add_entry, made_entry};
use trace_reader::{Act, Trace};
use trace_runs::judged;

/// What a call's line reports.
fn said_entry(line: u32, said: Said) -> ReportEntry
    ensures { result ≡ said_entry line said }
{
    match said {
        Said::Gone => ReportEntry::Gone { line },
        Said::Answered(answer) => ReportEntry::Answered { line, answer },
    }
}

/// What the thread's next call came to, which counts as told then.
fn next_said(said: &[Vec<Said>], told: &mut [usize], thread: u8) -> Said
    requires { IsNextOf said.now told.old thread }
    ensures said { (place : ℕ) → slice_get told.old thread ≡ Some place →
        slice_get (said_by said.now thread) place ≡ Some result }
    ensures told { (place : ℕ) → slice_get told.old thread ≡ Some place
        → told.new ≡ slice_set told.old thread (place + 1) }
{
    let thread = usize::from(thread);
    let place = told[thread];
    told[thread] = place + 1;
    said[thread][place]
}

/// What the line at this place reports. The lines before it are told.
fn line_entry(
    trace: &Trace,
    said: &[Vec<Said>],
    told: &mut [usize],
    place: usize,
) -> Option<ReportEntry>
    requires within { IsWithin trace.now }
    requires said { AreSaid trace.now said.now }
    requires place { place < length trace.now.lines.items }
    requires told { AreTold trace.now place told.old }
    ensures entry { (line : TraceLine) → slice_get trace.now.lines.items place ≡ Some line →
        ActTells trace.now (said_by said.now) (take place trace.now.lines.items) line.line line.act result }
    ensures told { AreTold trace.now (place + 1) told.new }
{
    let line = trace.lines()[place];
    match line.act {
        Act::Pool { pool } => made_entry(line.line, judged(trace, pool)),
        Act::Call { thread, .. } => {
            let one = next_said(said, told, thread);
            Some(said_entry(line.line, one))
        }
        _ => None,
    }
}

/// Adds what each line reports, in the order of the lines. The error is a want of memory.
pub(crate) fn add_lines(
    alloc: Global,
    report: &mut Report,
    trace: &Trace,
    said: &[Vec<Said>],
) -> Result<(), AllocError>
    requires within { IsWithin trace.now }
    requires said { AreSaid trace.now said.now }
    ensures { OnOk result (Reports trace.now (said_by said.now) report.old trace.now.lines.items report.new) }
{
    let mut told = vec![in alloc; 0usize; said.len()]?;
    for place in 0..trace.lines().len() {
        let entry = line_entry(trace, said, told.as_mut_slice(), place);
        match add_entry(report, entry) {
            Ok(()) => {}
            Err(NoMemory) => return Err(AllocError),
        }
    }
    Ok(())
}
