//! The steps of a push.

ghost use Rattle.std.specs.Prelude.{◌≡◌};
ghost use Rattle.chain_words.specs.Pushing.{push_course, push_learn, found_of};

use pool_words::{Action, Word};

/// The step that comes next.
#[derive(Clone, Copy)]
pub enum PushAt {
    /// The head is loaded.
    Look,
    /// The item is linked to the head that was found.
    Link { found: u64 },
    /// The head that was found is exchanged for the item.
    Exchange { found: u64 },
}

/// The word of the chain's head and the word of the item's link, what the link is set to, which names the head
/// that was found (`PushAt::found`), and what the head is set to, which names the item.
#[derive(Clone, Copy)]
pub struct PushCall {
    pub head: Word,
    pub link: Word,
    pub linked: u64,
    pub filled: u64,
}

#[derive(Clone, Copy)]
pub enum PushNext {
    Goes(PushAt),
    /// The item is in the chain, before what the head was.
    Pushed { found: u64 },
}

impl PushAt {
    pub fn next(self, call: PushCall) -> Action
        ensures { result ≡ push_course call self }
    {
        match self {
            PushAt::Look => Action::Load(call.head),
            PushAt::Link { .. } => Action::Store(call.link, call.linked),
            PushAt::Exchange { found } => Action::Exchange {
                word: call.head,
                from: found,
                to: call.filled,
            },
        }
    }

    /// The head that was found last; the end of a chain, 0, before the first look.
    pub fn found(self) -> u64
        ensures { result ≡ found_of self }
    {
        match self {
            PushAt::Look => 0,
            PushAt::Link { found } => found,
            PushAt::Exchange { found } => found,
        }
    }

    pub fn told(self, found: u64) -> PushNext
        ensures { result ≡ push_learn self found }
    {
        match self {
            PushAt::Look => PushNext::Goes(PushAt::Link { found }),
            PushAt::Link { found: head } => PushNext::Goes(PushAt::Exchange { found: head }),
            PushAt::Exchange { found: head } => {
                if found == head {
                    PushNext::Pushed { found }
                } else {
                    PushNext::Goes(PushAt::Link { found })
                }
            }
        }
    }
}
