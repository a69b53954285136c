//! The next word of a slab: the mailbox in which a stranger is to put it, or the slab behind it in a mailbox or
//! among the orphans. It is odd for a mailbox, with the seat in 8 bits and the class in 8 bits behind the
//! lowest bit; it is twice a link for a slab in a chain.

ghost use Rattle.std.specs.Prelude.{◌≡◌};
ghost use Rattle.word_codes.specs.Nexts.{next_of, next_word, mail_key_of, next_link_of, mailbox_word};

use crate::links::{link_of, link_word};
use pool_words::Word;

/// Which mailbox: that of a seat for slabs of a class.
#[derive(Clone, Copy)]
pub struct MailKey {
    pub seat: u8,
    pub class: u8,
}

#[derive(Clone, Copy)]
pub enum Next {
    Mailbox(MailKey),
    Link(Option<u64>),
}

impl MailKey {
    /// The word of the mailbox.
    pub fn mailbox(self) -> Word
        ensures { result ≡ mailbox_word self }
    {
        Word::Mailbox {
            seat: self.seat,
            class: self.class,
        }
    }
}

impl Next {
    #[tactic(auto, unfolding(crate::specs::Nexts::next_of))]
    pub fn of_word(word: u64) -> Next
        ensures { result ≡ next_of word }
    {
        if word % 2 == 1 {
            Next::Mailbox(MailKey {
                seat: (word / 2 % 256) as u8,
                class: (word / 512 % 256) as u8,
            })
        } else {
            Next::Link(link_of(word / 2))
        }
    }

    #[tactic(auto, unfolding(crate::specs::Nexts::next_word))]
    pub fn word(self) -> u64
        ensures { result ≡ next_word self }
    {
        match self {
            Next::Mailbox(key) => 1 + 2 * u64::from(key.seat) + 512 * u64::from(key.class),
            Next::Link(item) => 2 * (link_word(item) % 9223372036854775808),
        }
    }

    /// The mailbox that is named; that of seat 0 and class 0 where the slab is in a chain.
    pub fn mail_key(self) -> MailKey
        ensures { result ≡ mail_key_of self }
    {
        match self {
            Next::Mailbox(key) => key,
            Next::Link(_) => MailKey { seat: 0, class: 0 },
        }
    }

    /// The slab behind this one; none where the slab is in no chain.
    pub fn link(self) -> Option<u64>
        ensures { result ≡ next_link_of self }
    {
        match self {
            Next::Mailbox(_) => None,
            Next::Link(item) => item,
        }
    }
}
