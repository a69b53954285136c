//! The report of the lines so far, and what their calls came to. This project's own.
ghost use Rattle.std.specs.Prelude.{◌≡◌, OnOk};
ghost use Rattle.pool_types.specs.Sums.{capped};
ghost use Rattle.run_report.specs.Books.{noted, noted_some, called, counted, counts_with};

use pool_types::Answer;
use report_text::{NoMemory, Report, ReportEntry};
use std::alloc::AllocError;

/// How many calls were made whole, and how many calls came to an object, to null and to an object freed. Each count stays
/// at the greatest u64.
#[derive(Clone, Copy, Debug, Default, PartialEq, Eq)]
pub struct Counts {
    pub calls: u64,
    pub got: u64,
    pub null: u64,
    pub freed: u64,
}

/// What the lines so far have written and counted.
#[derive(Drop)]
pub struct Book {
    /// The report, where one is made.
    pub report: Option<Report>,
    /// Whether moves are reported.
    pub moves: bool,
    /// How many steps there are whose moves were reported; the count stays at the greatest u64.
    pub moved: u64,
    pub counts: Counts,
}

impl Counts {
    /// The counts with one more call that was answered so.
    fn with(self, answer: Answer) -> Counts
        ensures { result ≡ counts_with self answer }
    {
        match answer {
            Answer::Got { .. } => Counts {
                got: self.got.saturating_add(1),
                ..self
            },
            Answer::Null(_) => Counts {
                null: self.null.saturating_add(1),
                ..self
            },
            Answer::Freed => Counts {
                freed: self.freed.saturating_add(1),
                ..self
            },
            _ => self,
        }
    }
}

impl Book {
    /// Nothing is written yet, and nothing counted.
    pub fn begun(report: Option<Report>, moves: bool) -> Book
        ensures { result ≡ record {
          report = report;
          moves = moves;
          moved = 0;
          counts = record { calls = 0; got = 0; null = 0; freed = 0 };
        } }
    {
        Book {
            report,
            moves,
            moved: 0,
            counts: Counts::default(),
        }
    }

    /// Puts an entry at the end of the report, where one is made.
    pub fn note(&mut self, entry: ReportEntry) -> Result<(), AllocError>
        ensures { OnOk result (self.new ≡ noted self.old entry) }
    {
        match &mut self.report {
            None => Ok(()),
            Some(report) => match report.add(entry) {
                Ok(()) => Ok(()),
                Err(NoMemory) => Err(AllocError),
            },
        }
    }

    /// Puts an entry there, if there is one.
    pub fn note_some(&mut self, entry: Option<ReportEntry>) -> Result<(), AllocError>
        ensures { OnOk result (self.new ≡ noted_some self.old entry) }
    {
        match entry {
            None => Ok(()),
            Some(entry) => self.note(entry),
        }
    }

    /// Counts a call that is made whole.
    pub fn call(&mut self)
        ensures { self.new ≡ called self.old }
    {
        self.counts.calls = self.counts.calls.saturating_add(1);
    }

    /// Counts what a call came to.
    pub fn count(&mut self, answer: Answer)
        ensures { self.new ≡ counted self.old answer }
    {
        self.counts = self.counts.with(answer);
    }
}
