//! Every line on a pool that leaves it standing. This project's own.
ghost use Rattle.std.specs.Prelude.{IfOk};
ghost use Rattle.trace_calls.specs.Kept.{names_kept};
ghost use Rattle.line_runs.specs.PoolLines.{PoolRuns};

use crate::lines::{Came, LineAt};
use crate::pool::TracePool;
use crate::turns::Until;
use run_report::Book;
use std::alloc::{AllocError, Global};
use trace_calls::Places;
use trace_reader::TraceCall;

/// What a line does on a pool: it makes a call whole, begins one, makes turns, or resets the pool.
#[derive(Clone, Copy, Debug, PartialEq, Eq)]
pub enum PoolLine {
    Call(TraceCall),
    Begin(TraceCall),
    Go(Until),
    Reset,
}

impl TracePool {
    /// Runs a line on the pool.
    pub fn run(
        &mut self,
        alloc: Global,
        book: &mut Book,
        places: &mut Places,
        at: LineAt,
        deed: PoolLine,
    ) -> Result<Came, AllocError>
        ensures { IfOk result (λ came. PoolRuns deed at self.old (names_kept places.old) book.old
            came self.new (names_kept places.new) book.new) }
    {
        match deed {
            PoolLine::Call(call) => self.call(alloc, book, places, at, &call),
            PoolLine::Begin(call) => {
                self.begin_call(book, places, at, &call)?;
                Ok(Came::InTime)
            }
            PoolLine::Go(until) => self.finish(alloc, book, places, at, until),
            PoolLine::Reset => {
                self.reset(alloc, book, at.line)?;
                Ok(Came::InTime)
            }
        }
    }
}
