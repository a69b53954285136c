//! Bringing a cache bin back to its first state: its blocks are cut off, and its numbers are 0.

ghost use Rattle.std.specs.Prelude.{◌≡◌};
ghost use Rattle.word_codes.specs.Links.{link_of};
ghost use Rattle.reset_steps.specs.Clear.{number_word, number_after, cache_lock, clear_course};
ghost use Rattle.reset_steps.specs.Clear.{peeked, clear_headed, clear_walked, zeroed, clear_learn};

use locked_chain::Lock;
use pool_words::{Action, Word};
use word_codes::{END, FREE, link_of};

/// The seat, and the granules of the bin's blocks.
#[derive(Clone, Copy)]
pub struct ClearCall {
    pub seat: u8,
    pub granules: u64,
}

/// A number of a cache bin: how many blocks it has, the mean age, the threshold, the time of the last get, the age
/// that was released last, and how many objects are in use. `cache_ages` has what they mean.
#[derive(Clone, Copy)]
pub enum Number {
    Items,
    Mean,
    Threshold,
    Get,
    Cleaned,
    Used,
}

/// The positions of a clear.
#[derive(Clone, Copy)]
pub enum ClearAt {
    /// Loads a number, without the lock: a bin of which each is 0 is passed over.
    Peek(Number),

    /// Takes the bin's lock.
    Lock,

    /// Loads which block is the newest,
    Head,

    /// and which is behind this one.
    Link(u64),

    /// Cuts all blocks off.
    Cut,

    /// A number is 0 again.
    Zero(Number),

    /// Frees the lock.
    Unlock,
}

#[derive(Clone, Copy)]
pub enum ClearNext {
    Goes(ClearAt),

    /// This block is cut off with the others; the newest comes first.
    Taken { block: u64, at: ClearAt },

    /// Another has the bin's lock.
    Waits,

    /// The bin is in its first state, and was not locked.
    Passed,

    /// The bin is in its first state again, and the blocks are in hand.
    Cleared,
}

impl Number {
    /// The number's word, of the bin of blocks of so many granules.
    fn word(self, granules: u64) -> Word
        ensures { result ≡ number_word self granules }
    {
        match self {
            Number::Items => Word::CacheItems(granules),
            Number::Mean => Word::CacheMean(granules),
            Number::Threshold => Word::CacheThreshold(granules),
            Number::Get => Word::CacheGet(granules),
            Number::Cleaned => Word::CacheCleaned(granules),
            Number::Used => Word::CacheUsed(granules),
        }
    }

    /// The number that comes after this one.
    fn after(self) -> Option<Number>
        ensures { result ≡ number_after self }
    {
        match self {
            Number::Items => Some(Number::Mean),
            Number::Mean => Some(Number::Threshold),
            Number::Threshold => Some(Number::Get),
            Number::Get => Some(Number::Cleaned),
            Number::Cleaned => Some(Number::Used),
            Number::Used => None,
        }
    }
}

impl ClearCall {
    /// The bin's lock.
    fn lock(self) -> Lock
        ensures { result ≡ cache_lock self }
    {
        Lock {
            word: Word::CacheLock(self.granules),
            seat: self.seat,
        }
    }
}

/// A number was 0: the next one is looked at.
fn peeked(next: Option<Number>) -> ClearNext
    ensures { result ≡ peeked next }
{
    match next {
        Some(number) => ClearNext::Goes(ClearAt::Peek(number)),
        None => ClearNext::Passed,
    }
}

/// The newest block is known.
fn headed(head: Option<u64>) -> ClearNext
    ensures { result ≡ clear_headed head }
{
    match head {
        Some(block) => ClearNext::Taken {
            block,
            at: ClearAt::Link(block),
        },
        None => ClearNext::Goes(ClearAt::Zero(Number::Items)),
    }
}

/// The block behind one is known.
fn walked(link: Option<u64>) -> ClearNext
    ensures { result ≡ clear_walked link }
{
    match link {
        Some(block) => ClearNext::Taken {
            block,
            at: ClearAt::Link(block),
        },
        None => ClearNext::Goes(ClearAt::Cut),
    }
}

/// A number is 0: the next one is to be.
fn zeroed(next: Option<Number>) -> ClearNext
    ensures { result ≡ zeroed next }
{
    match next {
        Some(number) => ClearNext::Goes(ClearAt::Zero(number)),
        None => ClearNext::Goes(ClearAt::Unlock),
    }
}

impl ClearAt {
    pub fn next(self, call: ClearCall) -> Action
        ensures { result ≡ clear_course call self }
    {
        match self {
            ClearAt::Peek(number) => Action::Load(number.word(call.granules)),
            ClearAt::Lock => call.lock().next(),
            ClearAt::Head => Action::Load(Word::CacheHead(call.granules)),
            ClearAt::Link(block) => Action::Load(Word::CacheLink(block)),
            ClearAt::Cut => Action::Store(Word::CacheHead(call.granules), END),
            ClearAt::Zero(number) => Action::Store(number.word(call.granules), 0),
            ClearAt::Unlock => call.lock().frees(),
        }
    }

    pub fn told(self, found: u64) -> ClearNext
        ensures { result ≡ clear_learn self found }
    {
        match self {
            ClearAt::Peek(number) => {
                if found == 0 {
                    peeked(number.after())
                } else {
                    ClearNext::Goes(ClearAt::Lock)
                }
            }
            ClearAt::Lock => {
                if found == FREE {
                    ClearNext::Goes(ClearAt::Head)
                } else {
                    ClearNext::Waits
                }
            }
            ClearAt::Head => headed(link_of(found)),
            ClearAt::Link(_) => walked(link_of(found)),
            ClearAt::Cut => ClearNext::Goes(ClearAt::Zero(Number::Items)),
            ClearAt::Zero(number) => zeroed(number.after()),
            ClearAt::Unlock => ClearNext::Cleared,
        }
    }
}
