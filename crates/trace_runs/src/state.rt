//! What stands between two lines of a trace. This project's own.
ghost use Rattle.trace_runs.specs.States.{IsFirst};

use line_runs::TracePool;
use report_text::Report;
use run_report::Book;
use std::alloc::Global;
use std::marker::Model;
use trace_calls::Places;

/// The pools, by their numbers, what the names stand for, and what was written and counted.
#[derive(Drop)]
pub(crate) struct Run {
    /// A pool that was not made, or was destroyed, is None.
    pub(crate) pools: Vec<Option<TracePool>>,
    pub(crate) places: Places,
    pub(crate) book: Book,
}

impl Model for Run {
    ghost use Rattle.trace_runs.specs.States.{State};

    ghost Value = { State };

    ghost view = { λ r. record { pools = r.pools.items; places = r.places.kept.items; book = r.book } };
}

impl Run {
    /// Before the first line.
    pub(crate) fn begun(alloc: Global, report: Option<Report>, moves: bool) -> Run
        ensures { IsFirst report moves result }
    {
        Run {
            pools: Vec::new(alloc),
            places: Places::unbound(alloc),
            book: Book::begun(report, moves),
        }
    }
}
