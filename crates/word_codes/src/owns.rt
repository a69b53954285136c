//! Who keeps a slab: 0 where the slab never had a keeper, 1 for an orphan, and a seat plus 2.

ghost use Rattle.std.specs.Prelude.{◌≡◌};
ghost use Rattle.word_codes.specs.Owns.{own_of, own_word};

#[derive(Clone, Copy)]
pub enum Own {
    Nobody,
    Orphan,
    Kept(u8),
}

impl Own {
    #[tactic(auto, unfolding(crate::specs::Owns::own_of))]
    pub fn of_word(word: u64) -> Own
        ensures { result ≡ own_of word }
    {
        if word == 0 {
            Own::Nobody
        } else if word == 1 {
            Own::Orphan
        } else {
            Own::Kept(((word - 2) % 256) as u8)
        }
    }

    #[tactic(auto, unfolding(crate::specs::Owns::own_word))]
    pub fn word(self) -> u64
        ensures { result ≡ own_word self }
    {
        match self {
            Own::Nobody => 0,
            Own::Orphan => 1,
            Own::Kept(seat) => 2 + u64::from(seat),
        }
    }
}
