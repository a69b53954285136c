//! The run of a whole trace. This project's own.
ghost use Rattle.std.specs.Prelude.{◌≡◌, Some, IfOk, IfErr};
ghost use Rattle.trace_runs.specs.Ending.{reported, summary_of};
ghost use Rattle.trace_runs.specs.Runs.{Runs, Sums, LineComes, LinesCome, Begins, empty_report};

use crate::ends::{Summary, end_all, sum_all};
use crate::lines::deed_of;
use crate::state::Run;
use line_runs::Came;
use report_text::Report;
use std::alloc::{AllocError, Global};
use trace_reader::{Trace, TraceLine};

/// Why a trace was not run to its end.
#[derive(Clone, Copy, Debug, PartialEq, Eq)]
pub enum RunError {
    /// The line of this number made the most turns that a line makes, and none ended it.
    StepsOut { line: u32 },
    /// Memory ran out.
    NoMemory,
}

impl Run {
    /// Runs a line.
    fn one_line(&mut self, alloc: Global, trace: &Trace, line: &TraceLine) -> Result<(), RunError>
        ensures { LineComes trace.now line.now self.old result self.new }
    {
        match self.run(alloc, trace, line.line, deed_of(&line.act)) {
            Ok(Came::InTime) => Ok(()),
            Ok(Came::OutOfTurns) => Err(RunError::StepsOut { line: line.line }),
            Err(AllocError) => Err(RunError::NoMemory),
        }
    }

    /// Runs the lines one after another.
    fn all_lines(
        &mut self,
        alloc: Global,
        trace: &Trace,
        lines: &[TraceLine],
    ) -> Result<(), RunError>
        ensures { LinesCome trace.now lines.now self.old result self.new }
    {
        for line in lines {
            match self.one_line(alloc, trace, line) {
                Ok(()) => {}
                Err(error) => return Err(error),
            }
        }
        Ok(())
    }
}

/// Runs all lines of a trace.
fn run_all(
    alloc: Global,
    trace: &Trace,
    report: Option<Report>,
    moves: bool,
) -> Result<Run, RunError>
    ensures { Begins trace.now report moves result }
{
    let mut run = Run::begun(alloc, report, moves);
    match run.all_lines(alloc, trace, trace.lines()) {
        Ok(()) => Ok(run),
        Err(error) => Err(error),
    }
}

/// The report of a run that came to its end.
fn report_of(alloc: Global, run: Run) -> Result<Report, RunError>
    ensures report { IfOk result (λ report. reported run ≡ Some report) }
    ensures memory { IfErr result (λ error. error ≡ RunError.NoMemory) }
{
    let Run { pools, book, .. } = run;
    let Some(mut report) = book.report else {
        return Err(RunError::NoMemory);
    };
    match end_all(alloc, &mut report, pools.as_slice()) {
        Ok(()) => Ok(report),
        Err(AllocError) => Err(RunError::NoMemory),
    }
}

/// Runs all lines of a trace, with a report that has no entry yet.
fn run_reporting(
    alloc: Global,
    trace: &Trace,
    report: Report,
    moves: bool,
) -> Result<Report, RunError>
    requires { report ≡ empty_report trace.now }
    ensures { Runs moves trace.now result }
{
    match run_all(alloc, trace, Some(report), moves) {
        Ok(run) => report_of(alloc, run),
        Err(error) => Err(error),
    }
}

/// Runs all lines of a trace, and reports what they come to, with what each turn moves where that is asked; and then
/// what each pool has that stands at the end.
pub fn run_lines(alloc: Global, trace: &Trace, moves: bool) -> Result<Report, RunError>
    ensures { Runs moves trace.now result }
{
    let Ok(report) = Report::make(alloc, trace) else {
        return Err(RunError::NoMemory);
    };
    run_reporting(alloc, trace, report, moves)
}

/// The summary of a run that came to its end.
fn summary_of(alloc: Global, run: &Run) -> Result<Summary, RunError>
    ensures summary { IfOk result (λ summary. summary_of run.now ≡ summary) }
    ensures memory { IfErr result (λ error. error ≡ RunError.NoMemory) }
{
    match sum_all(alloc, run.book.counts, run.pools.as_slice()) {
        Ok(summary) => Ok(summary),
        Err(AllocError) => Err(RunError::NoMemory),
    }
}

/// Runs all lines of a trace, makes no report, and counts what its calls come to and what is held at the end.
pub fn sum_lines(alloc: Global, trace: &Trace) -> Result<Summary, RunError>
    ensures { Sums trace.now result }
{
    match run_all(alloc, trace, None, false) {
        Ok(run) => summary_of(alloc, &run),
        Err(error) => Err(error),
    }
}
