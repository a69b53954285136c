//! What a quiet pool has at the end of a trace. This project's own.
ghost use Rattle.std.specs.Prelude.{◌≡◌, ◌<◌, ◌^◌, ◌-◌, IfOk, OnOk};
ghost use Rattle.line_runs.specs.Ending.{is_fresh, bin_numbers, bins_to, most_bins};
ghost use Rattle.quiet_pool.specs.Quiet.{still_of};
ghost use Rattle.thread_runs.specs.Ending.{ended_report, slot_ended, ends_from};

use cache_ages::CacheNumbers;
use pool_types::Raw;
use quiet_pool::QuietPool;
use report_text::{BinNumbers, NoMemory, Report};
use std::alloc::{AllocError, Global};
use trace_calls::add_pool_end;

/// The most granules that a block of the cache has.
const MOST_BINS: u16 = 1023;

/// Whether each number of a cache bin is 0, and no item lies in it.
fn is_fresh(bin: &CacheNumbers) -> bool
    ensures { result ≡ is_fresh bin.now }
{
    bin.used == 0
        && bin.mean == 0
        && bin.threshold == 0
        && bin.get == 0
        && bin.cleaned == 0
        && bin.ages.is_empty()
}

/// The numbers of a cache bin, as a report has them.
fn bin_numbers(granules: u16, bin: &CacheNumbers) -> BinNumbers
    ensures { result ≡ bin_numbers granules bin.now }
{
    BinNumbers {
        granules,
        used: bin.used,
        items: bin.ages.len() as u64,
        mean: bin.mean,
        threshold: bin.threshold,
        get: bin.get,
        cleaned: bin.cleaned,
    }
}

/// The bins of a pool's cache that are not fresh, for blocks of up to so many granules.
#[tactic(auto, unfolding(line_runs::specs::Ending::bins_to))]
fn bins_to<R: Raw>(
    alloc: Global,
    pool: &mut QuietPool<R>,
    most: u16,
) -> Result<Vec<BinNumbers>, AllocError>
    requires { most < 2 ^ 16 - 1 }
    ensures bins { IfOk result (λ bins. bins.items ≡ bins_to (still_of pool.old) most) }
    ensures same { pool.new ≡ pool.old }
{
    let mut bins = Vec::new(alloc);
    for before in 0..most {
        let granules = before + 1;
        let bin = pool.cache(u32::from(granules));
        if !is_fresh(&bin) {
            bins.push(bin_numbers(granules, &bin))?;
        }
    }
    Ok(bins)
}

/// The bins of a pool's cache that are not fresh.
#[tactic(auto, unfolding(line_runs::specs::Ending::most_bins))]
fn all_bins<R: Raw>(alloc: Global, pool: &mut QuietPool<R>) -> Result<Vec<BinNumbers>, AllocError>
    ensures bins { IfOk result (λ bins. bins.items ≡ bins_to (still_of pool.old) most_bins) }
    ensures same { pool.new ≡ pool.old }
{
    bins_to(alloc, pool, MOST_BINS)
}

/// Adds what the pool of this number has: its totals, its cache, and what is still held.
#[tactic(auto, unfolding(crate::specs::Ending::ended_report))]
fn add_end<R: Raw>(
    alloc: Global,
    report: &mut Report,
    number: u16,
    pool: &mut QuietPool<R>,
) -> Result<(), AllocError>
    ensures report { OnOk result (report.new ≡ ended_report report.old number pool.old) }
    ensures same { pool.new ≡ pool.old }
{
    let bins = all_bins(alloc, pool)?;
    let leaks = pool.leaks(alloc)?;
    let totals = pool.totals();
    match add_pool_end(report, number, totals, bins.as_slice(), leaks.as_slice()) {
        Ok(()) => Ok(()),
        Err(NoMemory) => Err(AllocError),
    }
}

/// Adds what the pool of this number has, if it was made.
fn add_slot_end<R: Raw>(
    alloc: Global,
    report: &mut Report,
    number: u16,
    slot: &mut Option<QuietPool<R>>,
) -> Result<(), AllocError>
    ensures report { OnOk result (report.new ≡ slot_ended report.old number slot.old) }
    ensures same { slot.new ≡ slot.old }
{
    match slot {
        Some(pool) => add_end(alloc, report, number, pool),
        None => Ok(()),
    }
}

/// Adds what each pool has that was made.
pub(crate) fn add_ends<R: Raw>(
    alloc: Global,
    report: &mut Report,
    pools: &mut [Option<QuietPool<R>>],
) -> Result<(), AllocError>
    ensures report { OnOk result (report.new ≡ ends_from report.old 0 pools.old) }
    ensures same { pools.new ≡ pools.old }
{
    for number in 0..pools.len() {
        add_slot_end(alloc, report, (number % 65536) as u16, &mut pools[number])?;
    }
    Ok(())
}
