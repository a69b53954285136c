//! The arithmetic of ages, means and thresholds, on plain numbers: for a step of a whole bin, and for whoever has its
//! numbers one by one. Each function answers at all numbers.

ghost use Rattle.std.specs.Prelude.{◌≡◌};
ghost use Rattle.cache_ages.specs.Times.{span_between, mean_after_hit, threshold_after_miss, waited_threshold, regular_threshold, soft_threshold, is_stale};

/// At a get that misses the threshold becomes this many times the time since the last release (oneTBB's
/// `OnMissFactor`).
pub const MISS: u64 = 2;

/// A bin is large where its items are more than this many times its blocks in use (oneTBB's `TooLargeFactor`).
pub const LARGE: u64 = 2;

/// A bin has waited long where its last get lies back more than this many times its threshold (oneTBB's
/// `LongWaitFactor`).
pub const WAIT: u64 = 16;

/// What a regular cleanup judges a bin by: how many items it has, how many blocks of its size are in use, the mean, the
/// threshold, and the time of the last get.
#[derive(Clone, Copy, Debug, PartialEq, Eq)]
pub struct Usage {
    pub count: u64,
    pub used: u64,
    pub mean: u64,
    pub threshold: u64,
    pub get: u64,
}

/// The ticks from `earlier` to `time`, modulo 2^64.
pub fn span_between(earlier: u64, time: u64) -> u64
    ensures { result ≡ span_between earlier time }
{
    time.wrapping_sub(earlier)
}

/// The mean after a get took an item that lay here for so many ticks: the half of both, rounded down, or the ticks where
/// the mean was 0.
pub fn mean_after_hit(mean: u64, lay: u64) -> u64
    ensures { result ≡ mean_after_hit mean lay }
{
    if mean == 0 { lay } else { mean.midpoint(lay) }
}

/// The threshold after a get that missed: twice the ticks since the age of the item released last, at most 2^64 - 1, or
/// what it was where `cleaned` is 0, since none was released since the last miss.
pub fn threshold_after_miss(threshold: u64, cleaned: u64, time: u64) -> u64
    ensures { result ≡ threshold_after_miss threshold cleaned time }
{
    if cleaned == 0 {
        threshold
    } else {
        MISS.saturating_mul(span_between(cleaned, time))
    }
}

/// The threshold of a regular cleanup: 0 where the bin has waited long, and then, where it is large, the half of itself
/// and the mean, rounded down.
pub fn regular_threshold(usage: Usage, time: u64) -> u64
    ensures { result ≡ regular_threshold usage time }
{
    let waited = waited_threshold(usage, time);
    if u128::from(usage.count) > u128::from(LARGE) * u128::from(usage.used) {
        waited.midpoint(usage.mean)
    } else {
        waited
    }
}

fn waited_threshold(usage: Usage, time: u64) -> u64
    ensures { result ≡ waited_threshold usage time }
{
    let waited = span_between(usage.get, time);
    if u128::from(waited) > u128::from(WAIT) * u128::from(usage.threshold) {
        0
    } else {
        usage.threshold
    }
}

/// The threshold of a soft cleanup: the half of itself and the mean, rounded down.
pub fn soft_threshold(threshold: u64, mean: u64) -> u64
    ensures { result ≡ soft_threshold threshold mean }
{
    threshold.midpoint(mean)
}

/// Whether an item of this age has lain here for longer than the threshold.
pub fn is_stale(threshold: u64, time: u64, age: u64) -> bool
    ensures { result ≡ is_stale threshold time age }
{
    span_between(age, time) > threshold
}
