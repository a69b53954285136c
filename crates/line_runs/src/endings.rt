//! A line that destroys a pool, and what a pool has at the end of a trace. This project's own.
ghost use Rattle.std.specs.Prelude.{◌≡◌, ◌<◌, ◌-◌, ◌^◌, None, OnOk, IfOk};
ghost use Rattle.step_core.specs.Counts.{still_of};
ghost use Rattle.step_core.specs.Machines.{held_back};
ghost use Rattle.trace_calls.specs.Entries.{pool_end, with_entries};
ghost use Rattle.word_totals.specs.Leaking.{leaks_of};
ghost use Rattle.line_runs.specs.Ending.{Ends, Destroys, is_fresh, bin_numbers, bins_to, most_bins, ended_report};

use crate::pool::TracePool;
use cache_ages::CacheNumbers;
use part_model::Totals;
use pool_types::{Leak, ScriptedRaw};
use report_text::{BinNumbers, NoMemory, Report, ReportEntry};
use run_report::Book;
use std::alloc::{AllocError, Global};
use step_core::PlainMachine;
use trace_calls::add_pool_end;

/// The most granules that a block of the cache has.
const MOST_BINS: u16 = 1023;

/// Destroys a machine of which no seat is in a call, and writes what became of its regions.
fn ends(
    alloc: Global,
    book: &mut Book,
    line: u32,
    number: u16,
    machine: PlainMachine<ScriptedRaw>,
) -> Result<(), AllocError>
    requires { held_back machine ≡ None }
    ensures { OnOk result (Ends line number machine book.old book.new) }
{
    let objects = machine.leaks(alloc)?.len() as u64;
    let records = Vec::from_slice(alloc, machine.regions())?;
    match machine.destroy() {
        Ok((ended, _raw)) => book.note_left(line, number, &ended, objects, records.as_slice()),
        Err(_back) => unreachable!(),
    }
}

/// Destroys the pool of this number, and writes what became of its regions. Where a seat is in a call, it writes which
/// thread is, and the pool comes back.
pub fn destroy(
    alloc: Global,
    book: &mut Book,
    line: u32,
    number: u16,
    pool: TracePool,
) -> Result<Option<TracePool>, AllocError>
    ensures { IfOk result (λ left. Destroys line number pool book.old left book.new) }
{
    match pool.machine.held_back() {
        Some(seat) => {
            book.note(ReportEntry::CallOpenOf { line, seat })?;
            Ok(Some(pool))
        }
        None => {
            let TracePool { machine, .. } = pool;
            ends(alloc, book, line, number, machine)?;
            Ok(None)
        }
    }
}

/// Whether each number of a cache bin is 0, and no item lies in it.
fn is_fresh(bin: &CacheNumbers) -> bool
    ensures { result ≡ is_fresh bin.now }
{
    bin.used == 0
        && bin.mean == 0
        && bin.threshold == 0
        && bin.get == 0
        && bin.cleaned == 0
        && bin.ages.is_empty()
}

/// The numbers of a cache bin, as a report has them.
fn bin_numbers(granules: u16, bin: &CacheNumbers) -> BinNumbers
    ensures { result ≡ bin_numbers granules bin.now }
{
    BinNumbers {
        granules,
        used: bin.used,
        items: bin.ages.len() as u64,
        mean: bin.mean,
        threshold: bin.threshold,
        get: bin.get,
        cleaned: bin.cleaned,
    }
}

/// The bins of a machine's cache that are not fresh, for blocks of up to so many granules.
#[tactic(auto, unfolding(crate::specs::Ending::bins_to))]
fn bins_to(
    alloc: Global,
    machine: &PlainMachine<ScriptedRaw>,
    most: u16,
) -> Result<Vec<BinNumbers>, AllocError>
    requires { most < 2 ^ 16 - 1 }
    ensures { IfOk result (λ bins. bins.items ≡ bins_to (still_of machine.now) most) }
{
    let mut bins = Vec::new(alloc);
    for before in 0..most {
        let granules = before + 1;
        let bin = machine.cache(u32::from(granules));
        if !is_fresh(&bin) {
            bins.push(bin_numbers(granules, &bin))?;
        }
    }
    Ok(bins)
}

impl TracePool {
    /// How many bytes each kind of holder has.
    pub fn totals(&self) -> Totals
        ensures { result ≡ self.now.machine.totals }
    {
        self.machine.totals()
    }

    /// The objects that are held, by region and offset.
    pub fn leaks(&self, alloc: Global) -> Result<Vec<Leak>, AllocError>
        ensures { IfOk result (λ leaks. leaks.items ≡ leaks_of (still_of self.now.machine)) }
    {
        self.machine.leaks(alloc)
    }

    /// The bins of its cache that are not fresh.
    #[tactic(auto, unfolding(crate::specs::Ending::most_bins))]
    fn bins(&self, alloc: Global) -> Result<Vec<BinNumbers>, AllocError>
        ensures { IfOk result (λ bins. bins.items ≡ bins_to (still_of self.now.machine) most_bins) }
    {
        bins_to(alloc, &self.machine, MOST_BINS)
    }

    /// Writes what the pool of this number has at the end of a trace: its totals, its cache, and what is still held.
    #[tactic(auto, unfolding(crate::specs::Ending::ended_report))]
    pub fn report_end(
        &self,
        alloc: Global,
        report: &mut Report,
        number: u16,
    ) -> Result<(), AllocError>
        ensures { OnOk result (report.new ≡ ended_report report.old number self.now.machine) }
    {
        let bins = self.bins(alloc)?;
        let leaks = self.leaks(alloc)?;
        match add_pool_end(
            report,
            number,
            self.totals(),
            bins.as_slice(),
            leaks.as_slice(),
        ) {
            Ok(()) => Ok(()),
            Err(NoMemory) => Err(AllocError),
        }
    }
}
