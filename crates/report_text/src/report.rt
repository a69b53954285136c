//! A report, and its writing. This project's own.
ghost use Rattle.std.specs.Prelude.{◌≡◌, ◌++◌, ◌∷◌, [], List, OnOk, OnErr, IfOk, map};
ghost use Rattle.std.specs.Io.KnownBytes.{Appends};
ghost use Rattle.pool_types.specs.Causes.{Rose};
ghost use Rattle.report_text.specs.declared.entry.ReportEntry.{ReportEntry};
ghost use Rattle.pool_types.specs.Texts.{names_of};
ghost use Rattle.pool_types.specs.Transfers.{IsWrittenPart};
ghost use Rattle.report_text.specs.Entries.{entry_text, report_text};
ghost use Rattle.report_text.specs.Reports.{ReportView, ended_text, HasEntries};

use crate::entry::ReportEntry;
use crate::lines::add_entry;
use crate::text::Text;
use pool_types::{Failed, Sink, ThreadName, Threads, write_all};
use std::alloc::{AllocError, Global};
use std::marker::Model;

/// Memory ran out.
#[derive(Clone, Copy, Debug, PartialEq, Eq)]
pub struct NoMemory;

/// The names of a trace's threads, and the texts of the entries so far.
#[derive(Drop)]
pub struct Report {
    names: Vec<ThreadName>,
    text: Text,
}

impl Model for Report {
    ghost use Rattle.std.specs.Prelude.{◌≡◌, []};
    ghost use Rattle.pool_types.specs.Texts.{names_of};
    ghost use Rattle.report_text.specs.Reports.{ReportView};

    ghost Value = { ReportView };

    ghost view = { λ s. record { names = names_of s.names.items; text = s.text.whole } };

    ghost invariant = { λ s. s.text.begun ≡ [] };
}

/// The same names again.
fn duplicate_all(alloc: Global, names: &[ThreadName]) -> Result<Vec<ThreadName>, AllocError>
    ensures { IfOk result (λ kept. names_of kept.items ≡ names_of names.now) }
{
    let mut kept = Vec::new(alloc);
    for name in names {
        kept.push(name.duplicate())?;
    }
    Ok(kept)
}

impl Report {
    ghost use Rattle.std.specs.Prelude.{◌≡◌, ◌++◌, ◌∷◌, [], List, OnOk, OnErr, IfOk};
    ghost use Rattle.report_text.specs.declared.entry.ReportEntry.{ReportEntry};
    ghost use Rattle.pool_types.specs.Texts.{names_of};
    ghost use Rattle.report_text.specs.Entries.{entry_text};
    ghost use Rattle.report_text.specs.Reports.{HasEntries};

    /// A report of no entry. It keeps the names of the trace's threads.
    pub fn make<T: Threads>(alloc: Global, trace: &T) -> Result<Report, NoMemory>
        ensures empty { IfOk result (λ report. report ≡ record { names = T.names trace.now; text = [] }) }
        ensures entries { IfOk result (λ report. HasEntries report []) }
    {
        match duplicate_all(alloc, trace.threads()) {
            Ok(names) => Ok(Report {
                names,
                text: Text::new(alloc),
            }),
            Err(AllocError) => Err(NoMemory),
        }
    }

    /// Puts an entry at the end. Its text is written in place, and cut back where memory runs out, so that the report is
    /// then as before.
    pub fn add(&mut self, entry: ReportEntry) -> Result<(), NoMemory>
        ensures added { OnOk result (self.new ≡ record { names = self.old.names; text = self.old.text ++ entry_text self.old.names entry }) }
        ensures entries { OnOk result ((entries : List ReportEntry) → HasEntries self.old entries → HasEntries self.new (entries ++ entry ∷ [])) }
        ensures kept { OnErr result (self.new ≡ self.old) }
    {
        match add_entry(&mut self.text, self.names.as_slice(), entry) {
            Ok(()) => {
                self.text.close();
                Ok(())
            }
            Err(NoMemory) => {
                self.text.cut_back();
                Err(NoMemory)
            }
        }
    }
}

/// Writes the texts of a report's entries in their order, and then `end`. It takes no memory and writes on after no
/// fault: where a write fails, which comes only where the sink's count of faults rose, the front of that is written.
pub fn write_report<K: Sink>(sink: &mut K, report: &Report) -> Result<(), Failed>
    ensures whole { OnOk result (Appends (K.taken sink.old) (K.taken sink.new) (ended_text report.now)) }
    ensures part { IsWrittenPart (K.taken sink.old) (K.taken sink.new) (ended_text report.now) }
    ensures entries { (entries : List ReportEntry) → HasEntries report.now entries → ended_text report.now ≡ report_text report.now.names entries }
    ensures fault { OnErr result (Rose (K.faults sink.old) (K.faults sink.new)) }
    ensures kept { OnOk result (K.faults sink.new ≡ K.faults sink.old) }
{
    write_all(sink, report.text.whole())?;
    write_all(sink, b"end\n")
}
