//! The lock of a bin, of a cache bin or of the office: 0 where it is free, and the seat that has it plus 1.

ghost use Rattle.std.specs.Prelude.{◌≡◌};
ghost use Rattle.word_codes.specs.Locks.{holder_of, lock_word};

/// The word of a lock that nobody has.
pub const FREE: u64 = 0;

/// The word of a lock that this seat has.
#[tactic(auto, unfolding(crate::specs::Locks::lock_word))]
pub fn lock_word(seat: u8) -> u64
    ensures { result ≡ lock_word seat }
{
    u64::from(seat) + 1
}

/// The seat that has the lock.
#[tactic(auto, unfolding(crate::specs::Locks::holder_of))]
pub fn holder_of(word: u64) -> Option<u8>
    ensures { result ≡ holder_of word }
{
    if word == 0 {
        None
    } else {
        Some(((word - 1) % 256) as u8)
    }
}
