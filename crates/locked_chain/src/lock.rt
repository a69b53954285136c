//! A lock in a word: free, or some seat's.

ghost use Rattle.std.specs.Prelude.{◌≡◌};
ghost use Rattle.locked_chain.specs.Locks.{lock_course, lock_learn, unlock_course};

use pool_words::{Action, Word};
use word_codes::{FREE, lock_word};

/// The word of a lock, and the seat that takes it.
#[derive(Clone, Copy)]
pub struct Lock {
    pub word: Word,
    pub seat: u8,
}

/// What comes of trying to take a lock.
#[derive(Clone, Copy)]
pub enum LockNext {
    /// The seat has the lock.
    Won,

    /// Another has it. The same step is next.
    Waits,
}

impl Lock {
    /// The step that takes the lock.
    pub fn next(self) -> Action
        ensures { result ≡ lock_course self }
    {
        Action::Exchange {
            word: self.word,
            from: FREE,
            to: lock_word(self.seat),
        }
    }

    /// What the step found.
    pub fn told(self, found: u64) -> LockNext
        ensures { result ≡ lock_learn self found }
    {
        if found == FREE {
            LockNext::Won
        } else {
            LockNext::Waits
        }
    }

    /// The step that frees the lock.
    pub fn frees(self) -> Action
        ensures { result ≡ unlock_course self }
    {
        Action::Store(self.word, FREE)
    }
}
