//! A sweep: one cache bin's part of a cleanup. The blocks that have lain there too long are cut off, from the oldest on.

ghost use Rattle.std.specs.Prelude.{◌≡◌};
ghost use Rattle.word_codes.specs.Links.{link_of};
ghost use Rattle.large_cache.specs.Sweep.{sweep_course, sweep_learn, sweep_counted, judge_course, judge_learn, sweep_meant, sweep_set, sweep_headed, sweep_aged, sweep_walked, sweep_is_stale};

use crate::list::cut_behind;
use cache_ages::times::{Usage, is_stale, regular_threshold, soft_threshold};
use pool_words::{Action, Word};
use word_codes::{FREE, link_of, lock_word};

/// The cleanups: the one made once in a while, the one made where a block could not be had, and the one made where it
/// could still not be had, which releases all.
#[derive(Clone, Copy)]
pub enum Cleanup {
    Regular,
    Soft,
    Hard,
}

/// Which cache bin is swept, by the granules of its blocks; the cleanup; the seat that makes it; and its time, a tick of
/// the pool's clock, which counts for nothing in a hard one.
#[derive(Clone, Copy)]
pub struct SweepCall {
    pub seat: u8,
    pub granules: u64,
    pub time: u64,
    pub cleanup: Cleanup,
}

/// How far a walk from the newest block on has come: the bin's count as found, the threshold, the block that it is at,
/// the last block before it that stays, how many behind that one do not, and when the newest of these came.
#[derive(Clone, Copy)]
pub struct Walk {
    pub count: u64,
    pub threshold: u64,
    pub block: u64,
    pub kept: Option<u64>,
    pub stale: u64,
    pub newest: u64,
}

/// The positions of a sweep at which the bin is judged. `count`, `threshold`, `mean` and `get` are the bin's numbers as they
/// were found.
#[derive(Clone, Copy)]
pub enum JudgeAt {
    /// Loads the threshold,
    Threshold {
        count: u64,
    },
    /// the mean,
    Mean {
        count: u64,
        threshold: u64,
    },
    /// the time of the last get,
    Get {
        count: u64,
        threshold: u64,
        mean: u64,
    },
    /// and how many blocks are in use.
    Used {
        count: u64,
        threshold: u64,
        mean: u64,
        get: u64,
    },
}

/// The positions of a sweep. `count` is how many blocks were found, `threshold` the one by which they are judged.
#[derive(Clone, Copy)]
pub enum SweepAt {
    /// Loads the clock, once before the bins of a soft cleanup.
    Clock,
    /// Loads how many blocks there are, without the lock: a bin without one is passed over.
    Peek,
    /// Takes the bin's lock.
    Lock,
    /// Loads how many blocks there are.
    Items,
    /// Looks at what the cleanup judges the bin by.
    Judge(JudgeAt),
    /// The threshold has changed.
    SetThreshold { count: u64, threshold: u64 },
    /// Loads which block is the newest;
    Head { count: u64, threshold: u64 },
    /// of each block, when it came
    Age(Walk),
    /// and which is behind it.
    Link(Walk),
    /// Cuts off all behind the last block that stays.
    Cut(Walk),
    /// There are so many fewer.
    SetItems(Walk),
    /// Notes when the newest of those that were cut off came.
    SetCleaned(Walk),
    /// Frees the lock.
    Unlock,
}

/// Where a sweep goes on: with a block that stays, so that none before it is released; with one that is to be released,
/// if none after it stays; or otherwise. Or that it waits for the lock. Or its end: the time that the clock said, that
/// the bin was passed over, or that it was swept.
#[derive(Clone, Copy)]
pub enum SweepNext {
    Goes(SweepAt),
    Stays { at: SweepAt },
    Stale { block: u64, at: SweepAt },
    Waits,
    Began { time: u64 },
    Passed,
    Swept,
}

impl SweepAt {
    /// The next step.
    pub fn next(self, call: SweepCall) -> Action
        ensures { result ≡ sweep_course call self }
    {
        let granules = call.granules;
        match self {
            SweepAt::Clock => Action::Load(Word::Clock),
            SweepAt::Peek => Action::Load(Word::CacheItems(granules)),
            SweepAt::Lock => Action::Exchange {
                word: Word::CacheLock(granules),
                from: FREE,
                to: lock_word(call.seat),
            },
            SweepAt::Items => Action::Load(Word::CacheItems(granules)),
            SweepAt::Judge(at) => at.next(granules),
            SweepAt::SetThreshold { threshold, .. } => {
                Action::Store(Word::CacheThreshold(granules), threshold)
            }
            SweepAt::Head { .. } => Action::Load(Word::CacheHead(granules)),
            SweepAt::Age(walk) => Action::Load(Word::CacheAge(walk.block)),
            SweepAt::Link(walk) => Action::Load(Word::CacheLink(walk.block)),
            SweepAt::Cut(walk) => cut_behind(granules, walk.kept),
            SweepAt::SetItems(walk) => {
                let left = walk.count.saturating_sub(walk.stale);
                Action::Store(Word::CacheItems(granules), left)
            }
            SweepAt::SetCleaned(walk) => Action::Store(Word::CacheCleaned(granules), walk.newest),
            SweepAt::Unlock => Action::Store(Word::CacheLock(granules), FREE),
        }
    }

    /// What follows from what the step found.
    pub fn told(self, call: SweepCall, found: u64) -> SweepNext
        ensures { result ≡ sweep_learn call self found }
    {
        let at = match self {
            SweepAt::Clock => return SweepNext::Began { time: found },
            SweepAt::Peek => {
                if found == 0 {
                    return SweepNext::Passed;
                }
                SweepAt::Lock
            }
            SweepAt::Lock => {
                if found != FREE {
                    return SweepNext::Waits;
                }
                SweepAt::Items
            }
            SweepAt::Items => counted(call.cleanup, found),
            SweepAt::Judge(at) => at.told(call, found),
            SweepAt::SetThreshold { count, threshold } => SweepAt::Head { count, threshold },
            SweepAt::Head { count, threshold } => headed(count, threshold, found),
            SweepAt::Age(walk) => return aged(call, walk, found),
            SweepAt::Link(walk) => walked(walk, found),
            SweepAt::Cut(walk) => SweepAt::SetItems(walk),
            SweepAt::SetItems(walk) => SweepAt::SetCleaned(walk),
            SweepAt::SetCleaned(_) => SweepAt::Unlock,
            SweepAt::Unlock => return SweepNext::Swept,
        };
        SweepNext::Goes(at)
    }
}

impl JudgeAt {
    fn next(self, granules: u64) -> Action
        ensures { result ≡ judge_course granules self }
    {
        match self {
            JudgeAt::Threshold { .. } => Action::Load(Word::CacheThreshold(granules)),
            JudgeAt::Mean { .. } => Action::Load(Word::CacheMean(granules)),
            JudgeAt::Get { .. } => Action::Load(Word::CacheGet(granules)),
            JudgeAt::Used { .. } => Action::Load(Word::CacheUsed(granules)),
        }
    }

    fn told(self, call: SweepCall, found: u64) -> SweepAt
        ensures { result ≡ judge_learn call self found }
    {
        match self {
            JudgeAt::Threshold { count } => SweepAt::Judge(JudgeAt::Mean {
                count,
                threshold: found,
            }),
            JudgeAt::Mean { count, threshold } => meant(call.cleanup, count, threshold, found),
            JudgeAt::Get {
                count,
                threshold,
                mean,
            } => SweepAt::Judge(JudgeAt::Used {
                count,
                threshold,
                mean,
                get: found,
            }),
            JudgeAt::Used {
                count,
                threshold,
                mean,
                get,
            } => {
                let usage = Usage {
                    count,
                    used: found,
                    mean,
                    threshold,
                    get,
                };
                set(count, threshold, regular_threshold(usage, call.time))
            }
        }
    }
}

/// The bin's blocks were counted: what the cleanup judges it by is looked at, if there is one.
fn counted(cleanup: Cleanup, count: u64) -> SweepAt
    ensures { result ≡ sweep_counted cleanup count }
{
    if count == 0 {
        return SweepAt::Unlock;
    }
    match cleanup {
        Cleanup::Regular => SweepAt::Judge(JudgeAt::Threshold { count }),
        Cleanup::Soft => SweepAt::Judge(JudgeAt::Threshold { count }),
        Cleanup::Hard => SweepAt::Head {
            count,
            threshold: 0,
        },
    }
}

/// Threshold and mean are known, which a soft cleanup judges by.
fn meant(cleanup: Cleanup, count: u64, threshold: u64, mean: u64) -> SweepAt
    ensures { result ≡ sweep_meant cleanup count threshold mean }
{
    match cleanup {
        Cleanup::Regular => SweepAt::Judge(JudgeAt::Get {
            count,
            threshold,
            mean,
        }),
        Cleanup::Soft => set(count, threshold, soft_threshold(threshold, mean)),
        Cleanup::Hard => SweepAt::Head { count, threshold },
    }
}

/// The threshold is stored where it changes.
fn set(count: u64, old: u64, threshold: u64) -> SweepAt
    ensures { result ≡ sweep_set count old threshold }
{
    if threshold == old {
        SweepAt::Head { count, threshold }
    } else {
        SweepAt::SetThreshold { count, threshold }
    }
}

/// The walk begins at the newest block.
fn headed(count: u64, threshold: u64, head: u64) -> SweepAt
    ensures { result ≡ sweep_headed count threshold (link_of head) }
{
    match link_of(head) {
        Some(block) => {
            let walk = Walk {
                count,
                threshold,
                block,
                kept: None,
                stale: 0,
                newest: 0,
            };
            SweepAt::Age(walk)
        }
        None => SweepAt::Unlock,
    }
}

/// Whether a block that came then is to be released.
fn is_to_go(call: SweepCall, threshold: u64, age: u64) -> bool
    ensures { result ≡ sweep_is_stale call.cleanup call.time threshold age }
{
    match call.cleanup {
        Cleanup::Regular => is_stale(threshold, call.time, age),
        Cleanup::Soft => is_stale(threshold, call.time, age),
        Cleanup::Hard => true,
    }
}

/// It is known when the block came.
fn aged(call: SweepCall, walk: Walk, age: u64) -> SweepNext
    ensures { result ≡ sweep_aged call walk age }
{
    if is_to_go(call, walk.threshold, age) {
        let newest = if walk.stale == 0 { age } else { walk.newest };
        let stale = walk.stale.saturating_add(1);
        let walk = Walk {
            stale,
            newest,
            ..walk
        };
        return SweepNext::Stale {
            block: walk.block,
            at: SweepAt::Link(walk),
        };
    }
    let walk = Walk {
        kept: Some(walk.block),
        stale: 0,
        ..walk
    };
    SweepNext::Stays {
        at: SweepAt::Link(walk),
    }
}

/// The walk goes on to the block behind, or is at its end.
fn walked(walk: Walk, link: u64) -> SweepAt
    ensures { result ≡ sweep_walked walk (link_of link) }
{
    match link_of(link) {
        Some(block) => {
            let walk = Walk { block, ..walk };
            SweepAt::Age(walk)
        }
        None => {
            if walk.stale == 0 {
                SweepAt::Unlock
            } else {
                SweepAt::Cut(walk)
            }
        }
    }
}
