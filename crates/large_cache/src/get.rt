//! A get: the newest block of a cache bin is taken, and the bin's numbers follow.

ghost use Rattle.std.specs.Prelude.{◌≡◌};
ghost use Rattle.word_codes.specs.Links.{link_of};
ghost use Rattle.large_cache.specs.Get.{get_course, get_learn, hit_course, hit_learn, get_counted, get_headed, get_cleaned, get_unlocked};

use cache_ages::times::{mean_after_hit, span_between, threshold_after_miss};
use pool_words::{Action, Word};
use word_codes::{FREE, link_of, lock_word};

/// Which cache bin a get or an undo is of, by the granules of its blocks; the seat that makes it; and its time, a tick
/// of the pool's clock.
#[derive(Clone, Copy)]
pub struct CacheCall {
    pub seat: u8,
    pub granules: u64,
    pub time: u64,
}

/// What a get found of the newest block, and of the bin's count and mean.
#[derive(Clone, Copy)]
pub struct Newest {
    pub items: u64,
    pub block: u64,
    pub link: u64,
    pub age: u64,
    pub mean: u64,
}

/// The positions of a get that takes a block. `items`, `link` and `age` are words as they were found; `block` is the
/// block that is taken, by its first granule.
#[derive(Clone, Copy)]
pub enum HitAt {
    /// Loads the block behind the newest one,
    Link {
        items: u64,
        block: u64,
    },
    /// when the newest came,
    Age {
        items: u64,
        block: u64,
        link: u64,
    },
    /// and the mean.
    Mean {
        items: u64,
        block: u64,
        link: u64,
        age: u64,
    },
    /// Takes the newest block out.
    Pop(Newest),
    /// There is a block less.
    SetItems(Newest),
    /// The mean follows how long the block lay there.
    SetMean(Newest),
}

/// The positions of a get. `cleaned` and `used` are words as they were found.
#[derive(Clone, Copy)]
pub enum GetAt {
    /// Takes the bin's lock.
    Lock,
    /// Loads how many blocks there are,
    Items,
    /// and which is the newest.
    Head { items: u64 },
    /// Takes it.
    Hit(HitAt),
    /// There is no block: loads the age of the newest block released since the last miss,
    Cleaned,
    /// and where there was one, the threshold follows how long ago that is,
    SetThreshold { cleaned: u64 },
    /// and it counts no more.
    ClearCleaned,
    /// The bin was asked at this time.
    SetTime { block: Option<u64> },
    /// Loads how many blocks are in use.
    Used { block: Option<u64> },
    /// There is one more.
    SetUsed { block: Option<u64>, used: u64 },
    /// Frees the lock.
    Unlock { block: Option<u64> },
}

/// Where a get goes on, or that it waits for the lock, or its end: the block that it took, or none.
#[derive(Clone, Copy)]
pub enum GetNext {
    Goes(GetAt),
    Waits,
    Took { block: u64 },
    Missed,
}

impl GetAt {
    /// The next step.
    pub fn next(self, call: CacheCall) -> Action
        ensures { result ≡ get_course call self }
    {
        let granules = call.granules;
        match self {
            GetAt::Lock => Action::Exchange {
                word: Word::CacheLock(granules),
                from: FREE,
                to: lock_word(call.seat),
            },
            GetAt::Items => Action::Load(Word::CacheItems(granules)),
            GetAt::Head { .. } => Action::Load(Word::CacheHead(granules)),
            GetAt::Hit(at) => at.next(call),
            GetAt::Cleaned => Action::Load(Word::CacheCleaned(granules)),
            GetAt::SetThreshold { cleaned } => {
                let threshold = threshold_after_miss(0, cleaned, call.time);
                Action::Store(Word::CacheThreshold(granules), threshold)
            }
            GetAt::ClearCleaned => Action::Store(Word::CacheCleaned(granules), 0),
            GetAt::SetTime { .. } => Action::Store(Word::CacheGet(granules), call.time),
            GetAt::Used { .. } => Action::Load(Word::CacheUsed(granules)),
            GetAt::SetUsed { used, .. } => {
                Action::Store(Word::CacheUsed(granules), used.saturating_add(1))
            }
            GetAt::Unlock { .. } => Action::Store(Word::CacheLock(granules), FREE),
        }
    }

    /// What follows from what the step found.
    pub fn told(self, found: u64) -> GetNext
        ensures { result ≡ get_learn self found }
    {
        let at = match self {
            GetAt::Lock => {
                if found != FREE {
                    return GetNext::Waits;
                }
                GetAt::Items
            }
            GetAt::Items => counted(found),
            GetAt::Head { items } => headed(items, found),
            GetAt::Hit(at) => at.told(found),
            GetAt::Cleaned => cleaned(found),
            GetAt::SetThreshold { .. } => GetAt::ClearCleaned,
            GetAt::ClearCleaned => GetAt::SetTime { block: None },
            GetAt::SetTime { block } => GetAt::Used { block },
            GetAt::Used { block } => GetAt::SetUsed { block, used: found },
            GetAt::SetUsed { block, .. } => GetAt::Unlock { block },
            GetAt::Unlock { block } => return unlocked(block),
        };
        GetNext::Goes(at)
    }
}

impl HitAt {
    fn next(self, call: CacheCall) -> Action
        ensures { result ≡ hit_course call self }
    {
        let granules = call.granules;
        match self {
            HitAt::Link { block, .. } => Action::Load(Word::CacheLink(block)),
            HitAt::Age { block, .. } => Action::Load(Word::CacheAge(block)),
            HitAt::Mean { .. } => Action::Load(Word::CacheMean(granules)),
            HitAt::Pop(newest) => Action::Store(Word::CacheHead(granules), newest.link),
            HitAt::SetItems(newest) => {
                Action::Store(Word::CacheItems(granules), newest.items.saturating_sub(1))
            }
            HitAt::SetMean(newest) => {
                let lay = span_between(newest.age, call.time);
                Action::Store(Word::CacheMean(granules), mean_after_hit(newest.mean, lay))
            }
        }
    }

    fn told(self, found: u64) -> GetAt
        ensures { result ≡ hit_learn self found }
    {
        let at = match self {
            HitAt::Link { items, block } => HitAt::Age {
                items,
                block,
                link: found,
            },
            HitAt::Age { items, block, link } => HitAt::Mean {
                items,
                block,
                link,
                age: found,
            },
            HitAt::Mean {
                items,
                block,
                link,
                age,
            } => HitAt::Pop(Newest {
                items,
                block,
                link,
                age,
                mean: found,
            }),
            HitAt::Pop(newest) => HitAt::SetItems(newest),
            HitAt::SetItems(newest) => HitAt::SetMean(newest),
            HitAt::SetMean(newest) => {
                return GetAt::SetTime {
                    block: Some(newest.block),
                };
            }
        };
        GetAt::Hit(at)
    }
}

/// A bin without a block misses.
fn counted(items: u64) -> GetAt
    ensures { result ≡ get_counted items }
{
    if items == 0 {
        GetAt::Cleaned
    } else {
        GetAt::Head { items }
    }
}

/// The newest block, or a miss where there is none.
fn headed(items: u64, head: u64) -> GetAt
    ensures { result ≡ get_headed items (link_of head) }
{
    match link_of(head) {
        Some(block) => GetAt::Hit(HitAt::Link { items, block }),
        None => GetAt::Cleaned,
    }
}

/// The age of the newest block released since the last miss, or 0 where none was.
fn cleaned(cleaned: u64) -> GetAt
    ensures { result ≡ get_cleaned cleaned }
{
    if cleaned == 0 {
        GetAt::SetTime { block: None }
    } else {
        GetAt::SetThreshold { cleaned }
    }
}

fn unlocked(block: Option<u64>) -> GetNext
    ensures { result ≡ get_unlocked block }
{
    match block {
        Some(block) => GetNext::Took { block },
        None => GetNext::Missed,
    }
}
