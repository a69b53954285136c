//! What the lines on one pool come to. This project's own.
ghost use Rattle.std.specs.Prelude.{◌≡◌, IfOk, OnOk};
ghost use Rattle.run_report.specs.Books.{noted};
ghost use Rattle.trace_calls.specs.Kept.{names_kept};
ghost use Rattle.trace_calls.specs.Names.{Names};
ghost use Rattle.line_runs.specs.Lines.{Spends, IsAnswered, Stops, Finishes, Calls};
ghost use Rattle.line_runs.specs.Lines.{begun_at, begin_noted};

use crate::pool::TracePool;
use crate::turns::{Stop, Until};
use pool_types::{Answer, InCall};
use report_text::ReportEntry;
use run_report::Book;
use std::alloc::{AllocError, Global};
use trace_calls::Places;
use trace_reader::TraceCall;

/// What a line came to.
#[derive(Clone, Copy, Debug, PartialEq, Eq)]
pub enum Came {
    /// It was run.
    InTime,
    /// It made the most turns that a line makes, and none ended it.
    OutOfTurns,
}

/// Which line it is, by its number, and which thread's, by its seat.
#[derive(Clone, Copy, Debug, PartialEq, Eq)]
pub struct LineAt {
    pub line: u32,
    pub seat: u8,
}

/// The line is run, and writes this.
fn notes(book: &mut Book, entry: ReportEntry) -> Result<Came, AllocError>
    ensures came { IfOk result (λ came. came ≡ Came.InTime) }
    ensures book { OnOk result (book.new ≡ noted book.old entry) }
{
    book.note(entry)?;
    Ok(Came::InTime)
}

/// The call of a line was answered.
fn answered(
    book: &mut Book,
    places: &mut Places,
    call: TraceCall,
    line: u32,
    answer: Answer,
) -> Result<Came, AllocError>
    ensures { IfOk result (λ came. IsAnswered call line answer (names_kept places.old) book.old
        came (names_kept places.new) book.new) }
{
    places.answered(&call, answer)?;
    book.count(answer);
    notes(book, ReportEntry::Answered { line, answer })
}

/// As many turns were made as a line makes at most.
fn spends(book: &mut Book, line: u32, until: Until) -> Result<Came, AllocError>
    ensures { IfOk result (λ came. (names : Names) → Spends until line names book.old came names book.new) }
{
    match until {
        Until::Turns(_) => notes(book, ReportEntry::Stepped { line }),
        Until::Made(_) | Until::Answer => Ok(Came::OutOfTurns),
    }
}

/// What a line comes to whose turns stop so.
fn stops(
    book: &mut Book,
    places: &mut Places,
    call: TraceCall,
    line: u32,
    until: Until,
    stop: Stop,
) -> Result<Came, AllocError>
    ensures { IfOk result (λ came. Stops until line call stop (names_kept places.old) book.old
        came (names_kept places.new) book.new) }
{
    match stop {
        Stop::Answered(answer) => answered(book, places, call, line, answer),
        Stop::Waits(awaited) => notes(book, ReportEntry::Waits { line, awaited }),
        Stop::Idle => notes(book, ReportEntry::Idle { line }),
        Stop::Reached => notes(book, ReportEntry::Stepped { line }),
        Stop::Spent => spends(book, line, until),
    }
}

impl TracePool {
    /// Makes turns of the line's seat to where the line stops, and writes what it comes to.
    pub fn finish(
        &mut self,
        alloc: Global,
        book: &mut Book,
        places: &mut Places,
        at: LineAt,
        until: Until,
    ) -> Result<Came, AllocError>
        ensures { IfOk result (λ came. Finishes until at self.old (names_kept places.old) book.old
            came self.new (names_kept places.new) book.new) }
    {
        let stop = self.turns(alloc, book, at.seat, until)?;
        let call = self.call_of(at.seat);
        stops(book, places, call, at.line, until, stop)
    }

    /// Begins the call of a line.
    fn begins(&mut self, places: &Places, at: LineAt, call: &TraceCall) -> Result<(), InCall>
        ensures pool { self.new ≡ (begun_at at call.now self.old (names_kept places.now)).0 }
        ensures answer { result ≡ (begun_at at call.now self.old (names_kept places.now)).1 }
    {
        let request = places.request_of(call);
        self.begin(at.seat, call, request)
    }

    /// Makes a call whole: begins it, and makes turns to its answer.
    pub fn call(
        &mut self,
        alloc: Global,
        book: &mut Book,
        places: &mut Places,
        at: LineAt,
        call: &TraceCall,
    ) -> Result<Came, AllocError>
        ensures { IfOk result (λ came. Calls at call.now self.old (names_kept places.old) book.old
            came self.new (names_kept places.new) book.new) }
    {
        match self.begins(places, at, call) {
            Ok(()) => self.finish(alloc, book, places, at, Until::Answer),
            Err(_) => notes(book, ReportEntry::CallOpen { line: at.line }),
        }
    }

    /// Begins a call, and writes that it is begun or that the thread is in a call.
    pub fn begin_call(
        &mut self,
        book: &mut Book,
        places: &Places,
        at: LineAt,
        call: &TraceCall,
    ) -> Result<(), AllocError>
        ensures pool { OnOk result (self.new ≡ (begun_at at call.now self.old (names_kept places.now)).0) }
        ensures book { OnOk result (book.new ≡ begin_noted at call.now self.old (names_kept places.now) book.old) }
    {
        let line = at.line;
        match self.begins(places, at, call) {
            Ok(()) => book.note(ReportEntry::Begun { line }),
            Err(_) => book.note(ReportEntry::CallOpen { line }),
        }
    }
}
