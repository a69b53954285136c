//! Lines on the pool that they name. This project's own.
ghost use Rattle.std.specs.Prelude.{◌≡◌, IfOk, OnOk};
ghost use Rattle.report_text.specs.declared.entry.ReportEntry.TheVariants as entry;
ghost use Rattle.run_report.specs.Books.{noted};
ghost use Rattle.trace_calls.specs.Kept.{names_kept};
ghost use Rattle.trace_runs.specs.Slots.{SlotRuns, SlotsRun, SlotDestroys, SlotsDestroy};

use line_runs::{Came, LineAt, PoolLine, TracePool, destroy};
use report_text::ReportEntry;
use run_report::Book;
use std::alloc::{AllocError, Global};
use trace_calls::Places;

/// Writes that the pool of a line was not made, or was destroyed.
fn gone(book: &mut Book, line: u32) -> Result<Came, AllocError>
    ensures came { IfOk result (λ came. came ≡ Came.InTime) }
    ensures book { OnOk result (book.new ≡ noted book.old (entry.Gone line)) }
{
    book.note(ReportEntry::Gone { line })?;
    Ok(Came::InTime)
}

/// Runs a line that leaves its pool standing.
fn run_slot(
    alloc: Global,
    slot: &mut Option<TracePool>,
    book: &mut Book,
    places: &mut Places,
    at: LineAt,
    deed: PoolLine,
) -> Result<Came, AllocError>
    ensures { IfOk result (λ came. SlotRuns slot.old deed at (names_kept places.old) book.old
        came slot.new (names_kept places.new) book.new) }
{
    match slot {
        Some(pool) => {
            let came = pool.run(alloc, book, places, at, deed)?;
            Ok(came)
        }
        None => gone(book, at.line),
    }
}

/// Runs a line that leaves its pool standing, where that pool is the one of this number.
pub(crate) fn run_at(
    alloc: Global,
    pools: &mut [Option<TracePool>],
    number: u16,
    book: &mut Book,
    places: &mut Places,
    at: LineAt,
    deed: PoolLine,
) -> Result<Came, AllocError>
    ensures { IfOk result (λ came. SlotsRun number deed at pools.old (names_kept places.old) book.old
        came pools.new (names_kept places.new) book.new) }
{
    let index = usize::from(number);
    if index < pools.len() {
        let came = run_slot(alloc, &mut pools[index], book, places, at, deed)?;
        Ok(came)
    } else {
        gone(book, at.line)
    }
}

/// Destroys the pool of a line.
fn destroy_slot(
    alloc: Global,
    slot: &mut Option<TracePool>,
    book: &mut Book,
    line: u32,
    number: u16,
) -> Result<(), AllocError>
    ensures { OnOk result (SlotDestroys slot.old line number book.old slot.new book.new) }
{
    match slot.take() {
        Some(pool) => {
            *slot = destroy(alloc, book, line, number, pool)?;
            Ok(())
        }
        None => book.note(ReportEntry::Gone { line }),
    }
}

/// Destroys the pool of this number.
pub(crate) fn destroy_at(
    alloc: Global,
    pools: &mut [Option<TracePool>],
    number: u16,
    book: &mut Book,
    line: u32,
) -> Result<(), AllocError>
    ensures { OnOk result (SlotsDestroy line number pools.old book.old pools.new book.new) }
{
    let index = usize::from(number);
    if index < pools.len() {
        destroy_slot(alloc, &mut pools[index], book, line, number)?;
        Ok(())
    } else {
        book.note(ReportEntry::Gone { line })
    }
}
