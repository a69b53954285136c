//! Adopting orphans. One swap takes all orphans of a class. Of a slab that is adopted the header and the link
//! are read, then its next word names the adopter's mailbox, and then the adopter is its keeper. What was given
//! back to it is joined after that, as at a slab that was mailed.

ghost use Rattle.std.specs.Prelude.{◌≡◌};
ghost use Rattle.orphans.specs.Adopting.{adopt_course, adopt_learn, adopt_taken, key_of};

use pool_words::{Action, Word};
use word_codes::{END, MailKey, Next, Own, link_of};

/// The adopter, who reclaims abandoned slabs, and their class.
#[derive(Clone, Copy)]
pub struct AdoptCall {
    pub seat: u8,
    pub class: u8,
}

/// The step that comes next. `header` is the slab's header word, and `rest` is the slab behind it.
#[derive(Clone, Copy)]
pub enum AdoptAt {
    /// The chain of the class is taken.
    Take,
    /// The header of this slab is loaded.
    Header {
        slab: u64,
    },
    /// The link of the slab is loaded.
    Next {
        slab: u64,
        header: u64,
    },
    /// The slab's next word names the adopter's mailbox.
    Settle {
        slab: u64,
        header: u64,
        rest: Option<u64>,
    },
    /// The adopter is the slab's keeper.
    Own {
        slab: u64,
        header: u64,
        rest: Option<u64>,
    },
    /// The link of a slab that is to be pushed back is loaded.
    Spare {
        slab: u64,
    },
}

#[derive(Clone, Copy)]
pub enum AdoptNext {
    Goes(AdoptAt),
    /// The class has no orphans.
    Empty,
    /// The seat keeps this slab, and `rest` comes next. What was given back to it is still to be joined.
    Adopted {
        slab: u64,
        header: u64,
        rest: Option<u64>,
    },
    /// The slab is to be pushed back, and `rest` comes next.
    Spared {
        slab: u64,
        rest: Option<u64>,
    },
}

impl AdoptCall {
    /// The adopter's mailbox for slabs of the class.
    fn key_of(self) -> MailKey
        ensures { result ≡ key_of self }
    {
        MailKey {
            seat: self.seat,
            class: self.class,
        }
    }
}

impl AdoptAt {
    pub fn next(self, call: AdoptCall) -> Action
        ensures { result ≡ adopt_course call self }
    {
        match self {
            AdoptAt::Take => Action::Swap(Word::Orphans(call.class), END),
            AdoptAt::Header { slab } => Action::Load(Word::Header(slab)),
            AdoptAt::Next { slab, .. } => Action::Load(Word::Next(slab)),
            AdoptAt::Settle { slab, .. } => {
                Action::Store(Word::Next(slab), Next::Mailbox(call.key_of()).word())
            }
            AdoptAt::Own { slab, .. } => {
                Action::Store(Word::Own(slab), Own::Kept(call.seat).word())
            }
            AdoptAt::Spare { slab } => Action::Load(Word::Next(slab)),
        }
    }

    pub fn told(self, found: u64) -> AdoptNext
        ensures { result ≡ adopt_learn self found }
    {
        match self {
            AdoptAt::Take => adopt_taken(link_of(found)),
            AdoptAt::Header { slab } => AdoptNext::Goes(AdoptAt::Next {
                slab,
                header: found,
            }),
            AdoptAt::Next { slab, header } => AdoptNext::Goes(AdoptAt::Settle {
                slab,
                header,
                rest: Next::of_word(found).link(),
            }),
            AdoptAt::Settle { slab, header, rest } => {
                AdoptNext::Goes(AdoptAt::Own { slab, header, rest })
            }
            AdoptAt::Own { slab, header, rest } => AdoptNext::Adopted { slab, header, rest },
            AdoptAt::Spare { slab } => AdoptNext::Spared {
                slab,
                rest: Next::of_word(found).link(),
            },
        }
    }
}

/// What comes of a taking that found this slab in front.
fn adopt_taken(slab: Option<u64>) -> AdoptNext
    ensures { result ≡ adopt_taken slab }
{
    match slab {
        Some(slab) => AdoptNext::Goes(AdoptAt::Header { slab }),
        None => AdoptNext::Empty,
    }
}
