//! A guard of a block, at its begin or behind its end: 0 where the block is in use, 1 where it is being joined, 2 at a
//! region's end, and the granules of a free block plus 3. tbbmalloc's `GuardedSize`.

ghost use Rattle.std.specs.Prelude.{◌≡◌};
ghost use Rattle.word_codes.specs.Guards.{guard_of, guard_word};

/// A guard (a boundary tag): what it says of the block that begins or ends there.
#[derive(Clone, Copy)]
pub enum Guard {
    Used,
    /// The block is being joined to its neighbours, or waits for that in the queue.
    Coalescing,
    /// A region ends here (a sentinel).
    Wall,
    /// A free block of so many granules.
    Free(u64),
}

impl Guard {
    #[tactic(auto, unfolding(crate::specs::Guards::guard_of))]
    pub fn of_word(word: u64) -> Guard
        ensures { result ≡ guard_of word }
    {
        if word == 0 {
            Guard::Used
        } else if word == 1 {
            Guard::Coalescing
        } else if word == 2 {
            Guard::Wall
        } else {
            Guard::Free(word - 3)
        }
    }

    #[tactic(auto, unfolding(crate::specs::Guards::guard_word))]
    pub fn word(self) -> u64
        ensures { result ≡ guard_word self }
    {
        match self {
            Guard::Used => 0,
            Guard::Coalescing => 1,
            Guard::Wall => 2,
            Guard::Free(granules) => granules.saturating_add(3),
        }
    }
}
