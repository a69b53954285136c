//! The mark of an object, in the unit in which it begins.
//!
//! From the lowest bit on: a tag of 3 bits; for a grant a seat of 6 bits and a number of 55, for a hand a seat,
//! for a link a unit of 61 bits.

ghost use Rattle.std.specs.Prelude.{◌≡◌};
ghost use Rattle.word_codes.specs.Marks.{mark_of, mark_word, private_link, public_link};

use crate::publics::Public;
use pool_types::Grant;

/// A mark: the tag of a live object, or what is said where no object is held.
#[derive(Clone, Copy)]
pub enum Mark {
    /// No object that was ever handed out begins here.
    Unmarked,
    /// The object is held under this grant.
    Granted(Grant),
    /// The object is in the hand of this seat.
    Hand(u8),
    /// The object is in a list, and the one that begins at this unit is the next.
    Link(u64),
    /// The object is the last of a list.
    End,
    /// The object is the last of a list that began while nobody kept the slab.
    EndUnusable,
}

impl Mark {
    #[tactic(auto, unfolding(crate::specs::Marks::mark_of))]
    pub fn of_word(word: u64) -> Mark
        ensures { result ≡ mark_of word }
    {
        let tag = word % 8;
        if tag == 1 {
            Mark::Granted(Grant {
                seat: (word / 8 % 64) as u8,
                number: word / 512,
            })
        } else if tag == 2 {
            Mark::Hand((word / 8 % 64) as u8)
        } else if tag == 3 {
            Mark::Link(word / 8)
        } else if tag == 4 {
            Mark::End
        } else if tag == 5 {
            Mark::EndUnusable
        } else {
            Mark::Unmarked
        }
    }

    #[tactic(auto, unfolding(crate::specs::Marks::mark_word))]
    pub fn word(self) -> u64
        ensures { result ≡ mark_word self }
    {
        match self {
            Mark::Unmarked => 0,
            Mark::Granted(Grant { seat, number }) => {
                1 + 8 * u64::from(seat % 64) + 512 * (number % 36028797018963968)
            }
            Mark::Hand(seat) => 2 + 8 * u64::from(seat % 64),
            Mark::Link(unit) => 3 + 8 * (unit % 2305843009213693952),
            Mark::End => 4,
            Mark::EndUnusable => 5,
        }
    }
}

/// The word of the mark of an object that comes before this one in a private list.
pub fn private_link(next: Option<u64>) -> u64
    ensures { result ≡ private_link next }
{
    match next {
        Some(unit) => Mark::Link(unit).word(),
        None => Mark::End.word(),
    }
}

/// The word of the mark of an object that comes before what the slab's public word named.
pub fn public_link(public: Public) -> u64
    ensures { result ≡ public_link public }
{
    match public {
        Public::Null => Mark::End.word(),
        Public::Unusable => Mark::EndUnusable.word(),
        Public::Filled(unit) => Mark::Link(unit).word(),
    }
}
