//! The objects of a slab that others gave back: 0 for none, 1 for none at a slab that nobody keeps, and the
//! unit of the newest one plus 2.

ghost use Rattle.std.specs.Prelude.{◌≡◌};
ghost use Rattle.word_codes.specs.Publics.{public_of, public_word};

#[derive(Clone, Copy)]
pub enum Public {
    /// Nothing was given back, and the slab's keeper was not told of any.
    Null,
    /// Nothing was given back since the slab's keeper left. tbbmalloc's `UNUSABLE`.
    Unusable,
    /// The object that begins at this unit was given back last.
    Filled(u64),
}

impl Public {
    #[tactic(auto, unfolding(crate::specs::Publics::public_of))]
    pub fn of_word(word: u64) -> Public
        ensures { result ≡ public_of word }
    {
        if word == 0 {
            Public::Null
        } else if word == 1 {
            Public::Unusable
        } else {
            Public::Filled(word - 2)
        }
    }

    #[tactic(auto, unfolding(crate::specs::Publics::public_word))]
    pub fn word(self) -> u64
        ensures { result ≡ public_word self }
    {
        match self {
            Public::Null => 0,
            Public::Unusable => 1,
            Public::Filled(unit) => unit.saturating_add(2),
        }
    }
}
