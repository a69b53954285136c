//! Leaving a slab: its public word goes from Null to Unusable, its header tells its record, its keeper is
//! nobody, and it is pushed on the chain of its class. A slab that was taken from that chain is pushed back by
//! the push alone.

ghost use Rattle.std.specs.Prelude.{◌≡◌};
ghost use Rattle.orphans.specs.Leaving.{leave_course, leave_learn, leave_closed, leave_pushed};

use chain_words::{PushAt, PushNext};
use mailbox::slab_push;
use pool_words::{Action, Word};
use word_codes::{Own, Public};

/// The slab that is left (abandoned), its class, and its header word.
#[derive(Clone, Copy)]
pub struct LeaveCall {
    pub slab: u64,
    pub class: u8,
    pub header: u64,
}

/// The step that comes next.
#[derive(Clone, Copy)]
pub enum LeaveAt {
    /// The public word is exchanged from Null for Unusable.
    Close,
    /// The header is stored.
    Header,
    /// Nobody keeps the slab.
    Disown,
    /// The slab is pushed on the chain of its class; a slab that is pushed back begins here.
    Push(PushAt),
}

#[derive(Clone, Copy)]
pub enum LeaveNext {
    Goes(LeaveAt),
    /// Objects were given back to the slab: it is mailed, or is to be.
    Filled,
    /// The slab is an orphan.
    Left,
}

impl LeaveAt {
    pub fn next(self, call: LeaveCall) -> Action
        ensures { result ≡ leave_course call self }
    {
        match self {
            LeaveAt::Close => Action::Exchange {
                word: Word::Public(call.slab),
                from: Public::Null.word(),
                to: Public::Unusable.word(),
            },
            LeaveAt::Header => Action::Store(Word::Header(call.slab), call.header),
            LeaveAt::Disown => Action::Store(Word::Own(call.slab), Own::Orphan.word()),
            LeaveAt::Push(push) => {
                push.next(slab_push(Word::Orphans(call.class), call.slab, push.found()))
            }
        }
    }

    pub fn told(self, found: u64) -> LeaveNext
        ensures { result ≡ leave_learn self found }
    {
        match self {
            LeaveAt::Close => leave_closed(Public::of_word(found)),
            LeaveAt::Header => LeaveNext::Goes(LeaveAt::Disown),
            LeaveAt::Disown => LeaveNext::Goes(LeaveAt::Push(PushAt::Look)),
            LeaveAt::Push(push) => leave_pushed(push.told(found)),
        }
    }
}

/// What comes of an exchange that found this: it is won where it found Null.
fn leave_closed(public: Public) -> LeaveNext
    ensures { result ≡ leave_closed public }
{
    match public {
        Public::Null => LeaveNext::Goes(LeaveAt::Header),
        Public::Unusable | Public::Filled(_) => LeaveNext::Filled,
    }
}

/// What comes of a step of the push.
fn leave_pushed(next: PushNext) -> LeaveNext
    ensures { result ≡ leave_pushed next }
{
    match next {
        PushNext::Goes(push) => LeaveNext::Goes(LeaveAt::Push(push)),
        PushNext::Pushed { .. } => LeaveNext::Left,
    }
}
