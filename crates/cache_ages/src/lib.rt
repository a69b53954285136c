//! One bin of the cache of large blocks, as numbers and ages: which freed block is used again, how long one is
//! kept, and when it goes back to the backend.
//!
//! The rules are those of a bin of oneTBB's large object cache (`large_objects.cpp`), said of plain numbers. That a
//! bin has at most 64 items, and that time is a count of gets and puts, is this project's own.
#![tactic(auto)]

ghost use Rattle.std.specs.Prelude.{◌≡◌, ◌-◌, ◌^◌, ◌<◌, ◌≤◌, [], length, slice_index};
ghost use Rattle.cache_ages.specs.CacheSteps.{CanStep, cache_step, unchanged, after_get, after_hit, after_miss, after_put, after_undo, after_release, after_cleanup, after_regular, after_soft, count_stale, copied};
ghost use Rattle.cache_ages.specs.Laws.{LeavesInOrder, put_by};

pub mod laws;
#[cfg(test)]
mod tests;
pub mod times;

use arrayvec::ArrayVec;
use times::{
    Usage, is_stale, mean_after_hit, regular_threshold, soft_threshold, span_between,
    threshold_after_miss,
};

/// How many items a bin has at most.
pub const MOST_ITEMS: usize = 64;

/// A bin: the blocks of one size that were freed and may be used again, its items. By `default` it has none, and all
/// its numbers are 0.
///
/// Times are ticks of the pool's clock, which counts the gets and puts of large blocks. A time, and the difference of
/// two, is taken modulo 2^64: where calls overlap, an item's age can lie above the time of the next step, and then it
/// counts as having lain for nearly 2^64 ticks.
#[derive(Clone, Debug, Default, Drop, PartialEq, Eq)]
pub struct CacheNumbers {
    /// How many blocks of this size are in use.
    pub used: u64,
    /// For how many ticks the items that were taken lay here, as a mean in which the latest weigh most. 0 where none
    /// was taken.
    pub mean: u64,
    /// For how many ticks an item may lie here before a cleanup releases it.
    pub threshold: u64,
    /// The time of the last get.
    pub get: u64,
    /// The age of the item that was released last, or 0 where none was since the last get that missed.
    pub cleaned: u64,
    /// The age of each item, which is the time of its put. The newest is first; new and old are said of this order,
    /// which is the order of the puts, and the ages need not fall along it.
    pub ages: ArrayVec<u64, MOST_ITEMS>,
}

/// What happens to a bin.
#[derive(Clone, Copy, Debug, PartialEq, Eq)]
pub enum CacheOp {
    /// A block is asked for. The newest item is taken, and the mean becomes the half, rounded down, of itself and of
    /// the time for which the item lay here; where the mean was 0 it becomes that time. With no item the get misses:
    /// where one was released since the last miss, the threshold becomes twice the time since that item's age, or
    /// 2^64 - 1 where that is less, and `cleaned` becomes 0. A block more is in use either way.
    Get,
    /// A block is freed: it becomes the newest item, and a block less is in use. Where there are 64 items, the oldest
    /// is released first.
    Put,
    /// The caller of a get that missed found no block elsewhere either. A block less is in use.
    Undo,
    /// The cleanup that is made once in a while. Where the last get lies back more than 16 times the threshold, the
    /// threshold becomes 0. Where the items are then more than twice the blocks in use, it becomes the half, rounded
    /// down, of itself and the mean. Then items are released from the oldest on, until one has lain here for no longer
    /// than the threshold. Nothing changes where there is no item.
    Regular,
    /// The cleanup that is made where a block could not be had. The threshold becomes the half, rounded down, of itself
    /// and the mean, and items are released as by a regular cleanup. Nothing changes where there is no item.
    Soft,
    /// The cleanup that is made where a block could still not be had. All items are released.
    Hard,
}

/// What an operation did to a bin.
#[derive(Clone, Debug, Drop, PartialEq, Eq)]
pub struct CacheStep {
    /// The bin after it. Where items were released, `cleaned` is the age of the newest of them.
    pub numbers: CacheNumbers,
    /// Whether the newest item was taken.
    pub taken: bool,
    /// How many items were released. They were the oldest.
    pub released: u8,
}

/// What `op` at `time` does to a bin. The time counts for nothing at an undo and a hard cleanup. A put and an undo need
/// a block in use, and a get needs that one more can be counted. No memory is taken.
pub fn cache_step(numbers: &CacheNumbers, op: CacheOp, time: u64) -> CacheStep
    requires { CanStep op numbers.now.used }
    ensures step { result ≡ cache_step numbers.now op time }

    // What follows for the items.
    ensures room { length result.numbers.ages.items ≤ 64 }
    ensures order { LeavesInOrder result.taken numbers.now.ages.items result.numbers.ages.items
        (put_by op time) result.released }
    ensures cleaned { 0 < result.released →
        result.numbers.cleaned ≡ slice_index numbers.now.ages.items (length numbers.now.ages.items - result.released) }
    ensures soft { op ≡ CacheOp.Soft → length result.numbers.ages.items ≤ length numbers.now.ages.items }
    ensures hard { op ≡ CacheOp.Hard → result.numbers.ages.items ≡ [] }
{
    match op {
        CacheOp::Get => get(numbers, time),
        CacheOp::Put => put(numbers, time),
        CacheOp::Undo => undo(numbers),
        CacheOp::Regular => regular(numbers, time),
        CacheOp::Soft => soft(numbers, time),
        CacheOp::Hard => keep_newest(numbers, 0),
    }
}

fn get(numbers: &CacheNumbers, time: u64) -> CacheStep
    requires { numbers.now.used < 2 ^ 64 - 1 }
    ensures { result ≡ after_get numbers.now time numbers.now.ages.items }
{
    match numbers.ages.as_slice() {
        [newest, older @ ..] => hit(numbers, time, *newest, older),
        [] => miss(numbers, time),
    }
}

fn hit(numbers: &CacheNumbers, time: u64, newest: u64, older: &[u64]) -> CacheStep
    requires used { numbers.now.used < 2 ^ 64 - 1 }
    requires room { length older.now ≤ 64 }
    ensures { result ≡ after_hit numbers.now time newest older.now }
{
    CacheStep {
        numbers: CacheNumbers {
            used: numbers.used + 1,
            mean: mean_after_hit(numbers.mean, span_between(newest, time)),
            get: time,
            ages: copied(older),
            ..*numbers
        },
        taken: true,
        released: 0,
    }
}

fn miss(numbers: &CacheNumbers, time: u64) -> CacheStep
    requires used { numbers.now.used < 2 ^ 64 - 1 }
    requires empty { numbers.now.ages.items ≡ [] }
    ensures { result ≡ after_miss numbers.now time }
{
    let mut step = unchanged(numbers);
    step.numbers.used += 1;
    step.numbers.get = time;
    step.numbers.threshold = threshold_after_miss(numbers.threshold, numbers.cleaned, time);
    step.numbers.cleaned = 0;
    step
}

fn put(numbers: &CacheNumbers, time: u64) -> CacheStep
    requires { 0 < numbers.now.used }
    ensures { result ≡ after_put numbers.now time numbers.now.ages.items }
{
    let mut step = keep_newest(numbers, numbers.ages.len().min(MOST_ITEMS - 1));
    step.numbers.used -= 1;
    step.numbers.ages.insert(0, time);
    step
}

fn undo(numbers: &CacheNumbers) -> CacheStep
    requires { 0 < numbers.now.used }
    ensures { result ≡ after_undo numbers.now }
{
    let mut step = unchanged(numbers);
    step.numbers.used -= 1;
    step
}

fn regular(numbers: &CacheNumbers, time: u64) -> CacheStep
    ensures { result ≡ after_regular numbers.now time numbers.now.ages.items }
{
    if numbers.ages.is_empty() {
        return unchanged(numbers);
    }
    let usage = Usage {
        count: numbers.ages.len() as u64,
        used: numbers.used,
        mean: numbers.mean,
        threshold: numbers.threshold,
        get: numbers.get,
    };
    clean_up(numbers, regular_threshold(usage, time), time)
}

fn soft(numbers: &CacheNumbers, time: u64) -> CacheStep
    ensures { result ≡ after_soft numbers.now time numbers.now.ages.items }
{
    if numbers.ages.is_empty() {
        return unchanged(numbers);
    }
    clean_up(
        numbers,
        soft_threshold(numbers.threshold, numbers.mean),
        time,
    )
}

fn clean_up(numbers: &CacheNumbers, threshold: u64, time: u64) -> CacheStep
    ensures { result ≡ after_cleanup numbers.now threshold time numbers.now.ages.items }
{
    let stale = count_stale(numbers.ages.as_slice(), threshold, time);
    let mut step = keep_newest(numbers, numbers.ages.len() - stale);
    step.numbers.threshold = threshold;
    step
}

// How many items lay here for longer than the threshold, counted from the oldest on, up to the first that did not.
fn count_stale(ages: &[u64], threshold: u64, time: u64) -> usize
    ensures value { result ≡ count_stale threshold time ages.now }
    ensures within { result ≤ length ages.now }
{
    ages.iter()
        .rev()
        .take_while(|age| is_stale(threshold, time, **age))
        .count()
}

fn unchanged(numbers: &CacheNumbers) -> CacheStep
    ensures { result ≡ unchanged numbers.now }
{
    keep_newest(numbers, numbers.ages.len())
}

// Releases all but the `count` newest items.
fn keep_newest(numbers: &CacheNumbers, count: usize) -> CacheStep
    requires { count ≤ length numbers.now.ages.items }
    ensures { result ≡ after_release numbers.now (length numbers.now.ages.items - count) numbers.now.ages.items }
{
    let (kept, released) = numbers.ages.as_slice().split_at(count);
    CacheStep {
        numbers: CacheNumbers {
            cleaned: released.first().copied().unwrap_or(numbers.cleaned),
            ages: copied(kept),
            ..*numbers
        },
        taken: false,
        released: released.len() as u8,
    }
}

fn copied(ages: &[u64]) -> ArrayVec<u64, MOST_ITEMS>
    requires { length ages.now ≤ 64 }
    ensures { result ≡ copied ages.now }
{
    let mut copy = ArrayVec::new();
    copy.try_extend_from_slice(ages).unwrap();
    copy
}
