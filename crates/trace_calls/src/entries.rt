//! What a line reports, and what a pool reports at the end. This project's own.
ghost use Rattle.std.specs.Prelude.{◌≡◌, OnOk, map};
ghost use Rattle.trace_calls.specs.Entries.{cached, leaked, pool_end, with_entry, with_entries};

use part_model::Totals;
use pool_types::Leak;
use report_text::{BinNumbers, NoMemory, Report, ReportEntry};

/// Adds what a line reports, if it reports something.
pub fn add_entry(report: &mut Report, entry: Option<ReportEntry>) -> Result<(), NoMemory>
    ensures { OnOk result (report.new ≡ with_entry report.old entry) }
{
    match entry {
        Some(entry) => report.add(entry),
        None => Ok(()),
    }
}

/// Adds the bins of a pool's cache.
fn add_bins(report: &mut Report, pool: u16, bins: &[BinNumbers]) -> Result<(), NoMemory>
    ensures { OnOk result (report.new ≡ with_entries report.old (map (cached pool) bins.now)) }
{
    for bin in bins {
        report.add(ReportEntry::CacheBin { pool, bin: *bin })?;
    }
    Ok(())
}

/// Adds the objects that are still held.
fn add_leaks(report: &mut Report, leaks: &[Leak]) -> Result<(), NoMemory>
    ensures { OnOk result (report.new ≡ with_entries report.old (map leaked leaks.now)) }
{
    for leak in leaks {
        report.add(ReportEntry::Leaked { leak: *leak })?;
    }
    Ok(())
}

/// Adds what a pool reports at the end: its totals, the bins of its cache, and the objects that are still held.
pub fn add_pool_end(
    report: &mut Report,
    pool: u16,
    totals: Totals,
    bins: &[BinNumbers],
    leaks: &[Leak],
) -> Result<(), NoMemory>
    ensures { OnOk result (report.new ≡ with_entries report.old (pool_end pool totals bins.now leaks.now)) }
{
    report.add(ReportEntry::Total { pool, totals })?;
    add_bins(report, pool, bins)?;
    add_leaks(report, leaks)
}
