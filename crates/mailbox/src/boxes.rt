//! Taking a mailbox: one swap takes all its slabs. Each slab, from the front on, gets its mailbox back as its
//! next word, before what was given back to it is joined: from then on a stranger may have to mail it again.

ghost use Rattle.std.specs.Prelude.{◌≡◌};
ghost use Rattle.mailbox.specs.Boxes.{box_course, box_learn, box_taken, box_joined, key_of};

use pool_words::{Action, Word};
use public_list::{JoinAt, JoinCall, JoinNext};
use word_codes::{END, MailKey, Next, link_of};

/// The seat and the class of the mailbox (a message queue), and the newest private object of the slab that is joined.
#[derive(Clone, Copy)]
pub struct BoxCall {
    pub seat: u8,
    pub class: u8,
    pub head: Option<u64>,
}

/// The step that comes next. `rest` is the slab behind this one.
#[derive(Clone, Copy)]
pub enum BoxAt {
    /// The mailbox is taken.
    Take,
    /// The link of this slab is loaded.
    Next {
        slab: u64,
    },
    /// The slab's next word names its mailbox again.
    Settle {
        slab: u64,
        rest: Option<u64>,
    },
    /// What was given back to the slab is joined.
    Join {
        slab: u64,
        rest: Option<u64>,
        join: JoinAt,
    },
}

#[derive(Clone, Copy)]
pub enum BoxNext {
    Goes(BoxAt),
    /// Nothing was mailed.
    Empty,
    /// Nothing was given back to this slab; `rest` comes next.
    Unchanged {
        slab: u64,
        rest: Option<u64>,
    },
    /// So many objects are in front of this slab's private list, of which this is the first; `rest` comes next.
    Joined {
        slab: u64,
        first: u64,
        count: u64,
        rest: Option<u64>,
    },
}

impl BoxCall {
    /// Which mailbox it is.
    fn key_of(self) -> MailKey
        ensures { result ≡ key_of self }
    {
        MailKey {
            seat: self.seat,
            class: self.class,
        }
    }
}

impl BoxAt {
    pub fn next(self, call: BoxCall) -> Action
        ensures { result ≡ box_course call self }
    {
        match self {
            BoxAt::Take => Action::Swap(call.key_of().mailbox(), END),
            BoxAt::Next { slab } => Action::Load(Word::Next(slab)),
            BoxAt::Settle { slab, .. } => {
                Action::Store(Word::Next(slab), Next::Mailbox(call.key_of()).word())
            }
            BoxAt::Join { slab, join, .. } => join.next(JoinCall {
                slab,
                head: call.head,
            }),
        }
    }

    pub fn told(self, found: u64) -> BoxNext
        ensures { result ≡ box_learn self found }
    {
        match self {
            BoxAt::Take => box_taken(link_of(found)),
            BoxAt::Next { slab } => BoxNext::Goes(BoxAt::Settle {
                slab,
                rest: Next::of_word(found).link(),
            }),
            BoxAt::Settle { slab, rest } => BoxNext::Goes(BoxAt::Join {
                slab,
                rest,
                join: JoinAt::Take,
            }),
            BoxAt::Join { slab, rest, join } => box_joined(slab, rest, join.told(found)),
        }
    }
}

/// What comes of a taking that found this slab in front.
fn box_taken(slab: Option<u64>) -> BoxNext
    ensures { result ≡ box_taken slab }
{
    match slab {
        Some(slab) => BoxNext::Goes(BoxAt::Next { slab }),
        None => BoxNext::Empty,
    }
}

/// What comes of a step of the joining.
fn box_joined(slab: u64, rest: Option<u64>, next: JoinNext) -> BoxNext
    ensures { result ≡ box_joined slab rest next }
{
    match next {
        JoinNext::Goes(join) => BoxNext::Goes(BoxAt::Join { slab, rest, join }),
        JoinNext::Nothing => BoxNext::Unchanged { slab, rest },
        JoinNext::Joined { first, count } => BoxNext::Joined {
            slab,
            first,
            count,
            rest,
        },
    }
}
