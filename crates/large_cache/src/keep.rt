//! A put: a block goes into a cache bin as its newest one. Where there are 64, the oldest is released first.

ghost use Rattle.std.specs.Prelude.{◌≡◌};
ghost use Rattle.word_codes.specs.Links.{link_of};
ghost use Rattle.large_cache.specs.Keep.{keep_course, keep_learn, keep_headed, keep_walked, keep_released};

use crate::list::cut_behind;
use cache_ages::MOST_ITEMS;
use pool_words::{Action, Word};
use word_codes::{END, FREE, link_of, link_word, lock_word};

/// Which block is put, by its first granule; the cache bin, by the granules of its blocks; the seat that puts; and the
/// time, a tick of the pool's clock.
#[derive(Clone, Copy)]
pub struct KeepCall {
    pub seat: u8,
    pub granules: u64,
    pub time: u64,
    pub block: u64,
}

/// How far a walk to the oldest block has come: the head of the list as it was found, the block that the walk is at, and
/// the one before it.
#[derive(Clone, Copy)]
pub struct Tail {
    pub head: u64,
    pub before: Option<u64>,
    pub block: u64,
}

/// The positions of a put. `items`, `head`, `age` and `used` are words as they were found; `released` is the block that was
/// cut off.
#[derive(Clone, Copy)]
pub enum KeepAt {
    /// Takes the bin's lock.
    Lock,
    /// Loads how many blocks there are,
    Items,
    /// and which is the newest.
    Head {
        items: u64,
    },
    /// The bin is full: loads the block behind this one, until there is none;
    Walk(Tail),
    /// loads when the oldest came,
    OldAge(Tail),
    /// cuts it off,
    Cut {
        tail: Tail,
        age: u64,
    },
    /// and notes when it came.
    SetCleaned {
        tail: Tail,
        age: u64,
    },
    /// The old newest block is behind the one that is put.
    SetLink {
        items: u64,
        head: u64,
        released: Option<u64>,
    },
    /// It came at this time.
    SetAge {
        items: u64,
        released: Option<u64>,
    },
    /// It is the newest.
    SetHead {
        items: u64,
        released: Option<u64>,
    },
    /// There is one more.
    SetItems {
        items: u64,
        released: Option<u64>,
    },
    /// Loads how many blocks are in use.
    Used {
        released: Option<u64>,
    },
    /// There is one less.
    SetUsed {
        released: Option<u64>,
        used: u64,
    },
    /// Frees the lock.
    Unlock {
        released: Option<u64>,
    },
}

/// Where a put goes on, or that it waits for the lock, or its end: the block that was released, if one was.
#[derive(Clone, Copy)]
pub enum KeepNext {
    Goes(KeepAt),
    Waits,
    Kept { released: Option<u64> },
}

impl KeepAt {
    /// The next step.
    pub fn next(self, call: KeepCall) -> Action
        ensures { result ≡ keep_course call self }
    {
        let granules = call.granules;
        match self {
            KeepAt::Lock => Action::Exchange {
                word: Word::CacheLock(granules),
                from: FREE,
                to: lock_word(call.seat),
            },
            KeepAt::Items => Action::Load(Word::CacheItems(granules)),
            KeepAt::Head { .. } => Action::Load(Word::CacheHead(granules)),
            KeepAt::Walk(tail) => Action::Load(Word::CacheLink(tail.block)),
            KeepAt::OldAge(tail) => Action::Load(Word::CacheAge(tail.block)),
            KeepAt::Cut { tail, .. } => cut_behind(granules, tail.before),
            KeepAt::SetCleaned { age, .. } => Action::Store(Word::CacheCleaned(granules), age),
            KeepAt::SetLink { head, .. } => Action::Store(Word::CacheLink(call.block), head),
            KeepAt::SetAge { .. } => Action::Store(Word::CacheAge(call.block), call.time),
            KeepAt::SetHead { .. } => Action::Store(
                Word::CacheHead(granules),
                link_word(Some(call.block)),
            ),
            KeepAt::SetItems { items, .. } => {
                Action::Store(Word::CacheItems(granules), items.saturating_add(1))
            }
            KeepAt::Used { .. } => Action::Load(Word::CacheUsed(granules)),
            KeepAt::SetUsed { used, .. } => {
                Action::Store(Word::CacheUsed(granules), used.saturating_sub(1))
            }
            KeepAt::Unlock { .. } => Action::Store(Word::CacheLock(granules), FREE),
        }
    }

    /// What follows from what the step found.
    pub fn told(self, found: u64) -> KeepNext
        ensures { result ≡ keep_learn self found }
    {
        let at = match self {
            KeepAt::Lock => {
                if found != FREE {
                    return KeepNext::Waits;
                }
                KeepAt::Items
            }
            KeepAt::Items => KeepAt::Head { items: found },
            KeepAt::Head { items } => headed(items, found),
            KeepAt::Walk(tail) => walked(tail, found),
            KeepAt::OldAge(tail) => KeepAt::Cut { tail, age: found },
            KeepAt::Cut { tail, age } => KeepAt::SetCleaned { tail, age },
            KeepAt::SetCleaned { tail, .. } => released(tail),
            KeepAt::SetLink {
                items,
                released,
                ..
            } => KeepAt::SetAge { items, released },
            KeepAt::SetAge { items, released } => KeepAt::SetHead { items, released },
            KeepAt::SetHead { items, released } => KeepAt::SetItems { items, released },
            KeepAt::SetItems { released, .. } => KeepAt::Used { released },
            KeepAt::Used { released } => KeepAt::SetUsed {
                released,
                used: found,
            },
            KeepAt::SetUsed { released, .. } => KeepAt::Unlock { released },
            KeepAt::Unlock { released } => return KeepNext::Kept { released },
        };
        KeepNext::Goes(at)
    }
}

/// The newest block was found: a full bin releases its oldest one.
fn headed(items: u64, head: u64) -> KeepAt
    ensures { result ≡ keep_headed items head (link_of head) }
{
    match link_of(head) {
        Some(block) if items >= MOST_ITEMS as u64 => KeepAt::Walk(Tail {
            head,
            before: None,
            block,
        }),
        _ => KeepAt::SetLink {
            items,
            head,
            released: None,
        },
    }
}

/// The walk goes on to the block behind this one, or this one is the oldest.
fn walked(tail: Tail, link: u64) -> KeepAt
    ensures { result ≡ keep_walked tail (link_of link) }
{
    match link_of(link) {
        Some(block) => KeepAt::Walk(Tail {
            before: Some(tail.block),
            block,
            ..tail
        }),
        None => KeepAt::OldAge(tail),
    }
}

/// The oldest block was cut off, and the bin has room. Where it was the only one, the list is empty.
fn released(tail: Tail) -> KeepAt
    ensures { result ≡ keep_released tail tail.before }
{
    let head = match tail.before {
        Some(_) => tail.head,
        None => END,
    };
    KeepAt::SetLink {
        items: MOST_ITEMS as u64 - 1,
        head,
        released: Some(tail.block),
    }
}
