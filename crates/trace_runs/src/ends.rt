//! What is said at the end of a trace. This project's own.
ghost use Rattle.std.specs.Prelude.{◌≡◌, IfOk, OnOk};
ghost use Rattle.trace_runs.specs.Ending.{slot_ended, ends_from, with_slot, with_slots, counts_summary};

use line_runs::TracePool;
use report_text::Report;
use run_report::Counts;
use std::alloc::{AllocError, Global};

/// How many calls were made whole, how many calls came to an object, to null and to an object freed, how many objects
/// are held at the end, and how many bytes the regions have that are out then. Each count stays at the greatest u64.
#[derive(Clone, Copy, Debug, Default, PartialEq, Eq)]
pub struct Summary {
    pub calls: u64,
    pub got: u64,
    pub null: u64,
    pub freed: u64,
    pub leaks: u64,
    pub bytes: u64,
}

/// Writes what a pool has at the end, where it stands.
fn end_slot(
    alloc: Global,
    report: &mut Report,
    number: u16,
    slot: &Option<TracePool>,
) -> Result<(), AllocError>
    ensures { OnOk result (report.new ≡ slot_ended report.old number slot.now) }
{
    match slot {
        Some(pool) => pool.report_end(alloc, report, number),
        None => Ok(()),
    }
}

/// Writes what each pool has at the end that stands.
pub(crate) fn end_all(
    alloc: Global,
    report: &mut Report,
    pools: &[Option<TracePool>],
) -> Result<(), AllocError>
    ensures { OnOk result (report.new ≡ ends_from report.old 0 pools.now) }
{
    for (number, slot) in pools.iter().enumerate() {
        end_slot(alloc, report, (number % 65536) as u16, slot)?;
    }
    Ok(())
}

/// The summary of these counts, with nothing held.
fn counts_summary(counts: Counts) -> Summary
    ensures { result ≡ counts_summary counts }
{
    let Counts {
        calls,
        got,
        null,
        freed,
    } = counts;
    Summary {
        calls,
        got,
        null,
        freed,
        leaks: 0,
        bytes: 0,
    }
}

impl Summary {
    /// With what a pool holds, where it stands.
    fn with_slot(self, alloc: Global, slot: &Option<TracePool>) -> Result<Summary, AllocError>
        ensures { IfOk result (λ summary. summary ≡ with_slot self slot.now) }
    {
        match slot {
            Some(pool) => Ok(Summary {
                leaks: self.leaks.saturating_add(pool.leaks(alloc)?.len() as u64),
                bytes: self.bytes.saturating_add(pool.totals().bytes),
                ..self
            }),
            None => Ok(self),
        }
    }
}

/// The summary of these counts, with what each pool holds that stands.
pub(crate) fn sum_all(
    alloc: Global,
    counts: Counts,
    pools: &[Option<TracePool>],
) -> Result<Summary, AllocError>
    ensures { IfOk result (λ summary. summary ≡ with_slots (counts_summary counts) pools.now) }
{
    let mut summary = counts_summary(counts);
    for slot in pools {
        summary = summary.with_slot(alloc, slot)?;
    }
    Ok(summary)
}
