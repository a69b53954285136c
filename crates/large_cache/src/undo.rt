//! An undo: a get that missed counted a block as in use that its caller did not find elsewhere either.

ghost use Rattle.std.specs.Prelude.{◌≡◌};
ghost use Rattle.large_cache.specs.Undo.{undo_course, undo_learn};

use crate::get::CacheCall;
use pool_words::{Action, Word};
use word_codes::{FREE, lock_word};

/// The positions of an undo.
#[derive(Clone, Copy)]
pub enum UndoAt {
    /// Takes the bin's lock.
    Lock,
    /// Loads how many blocks are in use.
    Used,
    /// There is one less.
    SetUsed { used: u64 },
    /// Frees the lock.
    Unlock,
}

/// Where an undo goes on, or that it waits for the lock, or its end.
#[derive(Clone, Copy)]
pub enum UndoNext {
    Goes(UndoAt),
    Waits,
    Undone,
}

impl UndoAt {
    /// The next step. The call's time counts for nothing.
    pub fn next(self, call: CacheCall) -> Action
        ensures { result ≡ undo_course call self }
    {
        let granules = call.granules;
        match self {
            UndoAt::Lock => Action::Exchange {
                word: Word::CacheLock(granules),
                from: FREE,
                to: lock_word(call.seat),
            },
            UndoAt::Used => Action::Load(Word::CacheUsed(granules)),
            UndoAt::SetUsed { used } => {
                Action::Store(Word::CacheUsed(granules), used.saturating_sub(1))
            }
            UndoAt::Unlock => Action::Store(Word::CacheLock(granules), FREE),
        }
    }

    /// What follows from what the step found.
    pub fn told(self, found: u64) -> UndoNext
        ensures { result ≡ undo_learn self found }
    {
        match self {
            UndoAt::Lock => {
                if found == FREE {
                    UndoNext::Goes(UndoAt::Used)
                } else {
                    UndoNext::Waits
                }
            }
            UndoAt::Used => UndoNext::Goes(UndoAt::SetUsed { used: found }),
            UndoAt::SetUsed { .. } => UndoNext::Goes(UndoAt::Unlock),
            UndoAt::Unlock => UndoNext::Undone,
        }
    }
}
