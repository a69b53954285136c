//! What begins at a granule: a tag of 3 bits, and behind it the class of a slab in 8 bits, or the block of a
//! large object, its first granule in 16 bits and its granules in 45.

ghost use Rattle.std.specs.Prelude.{◌≡◌};
ghost use Rattle.word_codes.specs.Kinds.{kind_of, kind_word};

#[derive(Clone, Copy)]
pub enum Kind {
    Nothing,
    /// A slab of objects of this class.
    Slab(u8),
    /// A slab in a heap's cache of slabs.
    CachedSlab,
    /// A large object, in the block of so many granules from this first one on.
    Large { first: u64, granules: u64 },
}

impl Kind {
    #[tactic(auto, unfolding(crate::specs::Kinds::kind_of))]
    pub fn of_word(word: u64) -> Kind
        ensures { result ≡ kind_of word }
    {
        let tag = word % 8;
        if tag == 1 {
            Kind::Slab((word / 8 % 256) as u8)
        } else if tag == 2 {
            Kind::CachedSlab
        } else if tag == 3 {
            Kind::Large {
                first: word / 8 % 65536,
                granules: word / 524288,
            }
        } else {
            Kind::Nothing
        }
    }

    #[tactic(auto, unfolding(crate::specs::Kinds::kind_word))]
    pub fn word(self) -> u64
        ensures { result ≡ kind_word self }
    {
        match self {
            Kind::Nothing => 0,
            Kind::Slab(class) => 1 + 8 * u64::from(class),
            Kind::CachedSlab => 2,
            Kind::Large { first, granules } => {
                3 + 8 * (first % 65536) + 524288 * (granules % 35184372088832)
            }
        }
    }
}
