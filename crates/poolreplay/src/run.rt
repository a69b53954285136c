//! Runs the lines of a trace, one after another. This project's own.
ghost use Rattle.std.specs.Prelude.{◌≡◌, ℕ, ◌≤◌, ◌<◌, ◌-◌, ◌^◌, List, Some, None, IfOk, OnOk, All, length, map};
ghost use Rattle.pool_types.specs.Limits.{most_lines, most_seats};
ghost use Rattle.plain_lists.specs.Lists.{Lists};
ghost use Rattle.plain_lists.specs.Whole.{IsServed, whole};
ghost use Rattle.plain_pool.specs.Pool.{Stands};
ghost use Rattle.trace_calls.specs.Pools.{made_entry};
ghost use Rattle.trace_calls.specs.Entries.{with_entry, with_entries};
ghost use Rattle.trace_calls.specs.Names.{no_names, request_of, names_after};
ghost use Rattle.poolreplay.specs.Running.{Going, no_line, judged, after_making, after_call, after_line, after_lines};
ghost use Rattle.poolreplay.specs.Running.{call_entry, entry_at, held_entries, run_entries, run_report, IsAt};
ghost use Rattle.poolreplay.specs.Running.{StandsFor, IsServedLine, HasGranted, HasThread};
ghost use Rattle.trace_calls.specs.Kept.{names_kept};

use plain_pool::Pool;
use pool_types::{Answer, CreateError};
use report_text::{NoMemory, Report, ReportEntry};
use std::alloc::{AllocError, Global};
use trace_calls::{Places, add_entry, add_pool_end, judge_pool, made_entry};
use trace_reader::{Act, PoolOption, Trace, TraceCall, TraceLine};

/// The pool, once it is made, what the names stand for, and the report of the lines so far.
#[derive(Drop)]
pub struct Run {
    pool: Option<Pool>,
    places: Places,
    report: Report,
}

/// How the making of the pool of a line `pool P0 fixed` is judged, for so many threads.
fn judged(threads: u8) -> Result<(), CreateError>
    requires { threads ≤ most_seats }
    ensures { result ≡ judged threads }
{
    judge_pool(0, threads, &[PoolOption::Fixed])
}

/// The pool whose making was judged so.
fn pool_of(alloc: Global, verdict: Result<(), CreateError>) -> Result<Option<Pool>, AllocError>
    ensures { IfOk result (λ pool. StandsFor pool (after_making verdict)) }
{
    match verdict {
        Ok(()) => Ok(Some(Pool::new(alloc)?)),
        Err(_) => Ok(None),
    }
}

/// Makes a call of the pool, and keeps what its answer makes a name stand for.
fn call_pool(pool: &mut Pool, places: &mut Places, call: &TraceCall) -> Result<Answer, AllocError>
    requires stands { (lists : Lists) × Stands pool.old lists × (lists.granted < 2 ^ 55 - 1) }
    requires served { IsServed (request_of (names_kept places.old) call.now) }
    ensures pool { OnOk result ((lists : Lists) → Stands pool.old lists →
        Stands pool.new (whole lists (request_of (names_kept places.old) call.now)).lists) }
    ensures names { IfOk result (λ answer. (name : ℕ) →
        names_kept places.new name ≡ names_after (names_kept places.old) call.now answer name) }
    ensures answer { IfOk result (λ answer. (lists : Lists) → Stands pool.old lists →
        answer ≡ (whole lists (request_of (names_kept places.old) call.now)).answer) }
{
    let answer = pool.call(places.request_of(call));
    places.answered(call, answer)?;
    Ok(answer)
}

/// Adds what the pool holds at the end.
fn add_held(alloc: Global, report: &mut Report, pool: &Pool) -> Result<(), NoMemory>
    requires stands { (lists : Lists) × Stands pool.now lists }
    ensures { OnOk result ((lists : Lists) → Stands pool.now lists →
        report.new ≡ with_entries report.old (held_entries (Some lists))) }
{
    match pool.leaks(alloc) {
        Ok(leaks) => add_pool_end(report, 0, pool.totals(), &[], leaks.as_slice()),
        Err(AllocError) => Err(NoMemory),
    }
}

impl Run {
    /// Makes the pool, where that is allowed, and reports how its making was judged.
    fn make(&mut self, alloc: Global, threads: u8, line: u32) -> Result<(), NoMemory>
        requires few { threads ≤ most_seats }
        ensures going { OnOk result ((going : Going) → IsAt self.old.pool self.old.places going →
            IsAt self.new.pool self.new.places
            (record { lists = after_making (judged threads); names = going.names })) }
        ensures report { OnOk result (self.new.report
            ≡ with_entry self.old.report (made_entry line (judged threads))) }
    {
        let verdict = judged(threads);
        let Ok(pool) = pool_of(alloc, verdict) else {
            return Err(NoMemory);
        };
        self.pool = pool;
        add_entry(&mut self.report, made_entry(line, verdict))
    }

    /// What a call reports. A pool that was not made is gone.
    fn call(&mut self, line: u32, call: &TraceCall) -> Result<ReportEntry, NoMemory>
        requires served { IsServed (request_of no_names call.now) }
        requires going { (going : Going) × IsAt self.old.pool self.old.places going
            × HasGranted (2 ^ 55 - 2) going.lists }
        ensures going { OnOk result ((going : Going) → IsAt self.old.pool self.old.places going →
            IsAt self.new.pool self.new.places (after_call going.names call.now going.lists)) }
        ensures entry { IfOk result (λ entry. (going : Going) → IsAt self.old.pool self.old.places going →
            entry ≡ call_entry line going.names call.now going.lists) }
        ensures report { self.new.report ≡ self.old.report }
    {
        match &mut self.pool {
            Some(pool) => match call_pool(pool, &mut self.places, call) {
                Ok(answer) => Ok(ReportEntry::Answered { line, answer }),
                Err(AllocError) => Err(NoMemory),
            },
            None => Ok(ReportEntry::Gone { line }),
        }
    }

    /// Runs a line.
    fn step(&mut self, alloc: Global, threads: u8, line: &TraceLine) -> Result<(), NoMemory>
        requires few { threads ≤ most_seats }
        requires served { IsServedLine line.now }
        requires going { (going : Going) × IsAt self.old.pool self.old.places going
            × HasGranted (2 ^ 55 - 2) going.lists × HasThread threads going.lists }
        ensures going { OnOk result ((going : Going) → IsAt self.old.pool self.old.places going →
            IsAt self.new.pool self.new.places (after_line threads going line.now.act)) }
        ensures report { OnOk result ((going : Going) → IsAt self.old.pool self.old.places going →
            self.new.report ≡ with_entry self.old.report (entry_at threads going line.now.line line.now.act)) }
    {
        match &line.act {
            Act::Pool { .. } => self.make(alloc, threads, line.line),
            Act::Call { call, .. } => {
                let entry = self.call(line.line, call)?;
                self.report.add(entry)
            }
            _ => Ok(()),
        }
    }

    /// What all its lines came to, and then what its pool holds.
    fn into_report(self, alloc: Global) -> Result<Report, NoMemory>
        requires { (going : Going) × IsAt self.pool self.places going
            × HasThread (length self.report.names) going.lists }
        ensures { IfOk result (λ report. (going : Going) → IsAt self.pool self.places going →
            report ≡ with_entries self.report (held_entries going.lists)) }
    {
        let Run {
            pool,
            mut report,
            ..
        } = self;
        if let Some(pool) = &pool {
            add_held(alloc, &mut report, pool)?;
        }
        Ok(report)
    }
}

/// Runs the lines one after another.
fn run_lines(alloc: Global, run: &mut Run, threads: u8, lines: &[TraceLine]) -> Result<(), NoMemory>
    requires few { threads ≤ most_seats }
    requires served { All IsServedLine lines.now }
    requires short { length lines.now ≤ most_lines }
    requires fresh { IsAt run.old.pool run.old.places no_line }
    ensures going { OnOk result (IsAt run.new.pool run.new.places (after_lines threads no_line lines.now)) }
    ensures report { OnOk result (run.new.report
        ≡ with_entries run.old.report (run_entries threads no_line lines.now)) }
    ensures thread { OnOk result (HasThread threads (after_lines threads no_line lines.now).lists) }
{
    for line in lines {
        run.step(alloc, threads, line)?;
    }
    Ok(())
}

/// Runs the lines of a trace, and reports what they come to. The calls in the lines are served.
pub fn run_trace(alloc: Global, trace: &Trace) -> Result<Report, NoMemory>
    requires served { All IsServedLine trace.now.lines.items }
    requires short { length trace.now.lines.items ≤ most_lines }
    ensures { IfOk result (λ report. report ≡ run_report trace.now) }
{
    let threads = trace.names.len() as u8;
    let mut run = Run {
        pool: None,
        places: Places::unbound(alloc),
        report: Report::make(alloc, trace)?,
    };
    run_lines(alloc, &mut run, threads, trace.lines())?;
    run.into_report(alloc)
}
