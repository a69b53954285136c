//! Taking an item out of a list that is linked both ways, under the list's lock.

ghost use Rattle.std.specs.Prelude.{◌≡◌};
ghost use Rattle.locked_chain.specs.Remove.{remove_course, remove_learn};

use crate::ListCall;
use pool_words::{Action, Word};
use word_codes::link_of;

/// What comes next of a removal. `forward` and `backward` are the words that named the items behind and before it.
#[derive(Clone, Copy)]
pub enum RemoveAt {
    /// The item behind it is looked at.
    Forward,

    /// The item before it is looked at.
    Backward { forward: u64 },

    /// What is before the item, or the list's head, leads to what is behind it.
    Skip { forward: u64, backward: u64 },

    /// What is behind the item leads back to what is before it.
    SkipBack { behind: u64, backward: u64 },
}

#[derive(Clone, Copy)]
pub enum RemoveNext {
    Goes(RemoveAt),
    Out,
}

impl RemoveAt {
    pub fn next(self, call: ListCall) -> Action
        ensures { result ≡ remove_course call self }
    {
        match self {
            RemoveAt::Forward => Action::Load(Word::Forward(call.item)),
            RemoveAt::Backward { .. } => Action::Load(Word::Backward(call.item)),
            RemoveAt::Skip { forward, backward } => match link_of(backward) {
                Some(before) => Action::Store(Word::Forward(before), forward),
                None => Action::Store(call.head, forward),
            },
            RemoveAt::SkipBack { behind, backward } => {
                Action::Store(Word::Backward(behind), backward)
            }
        }
    }

    pub fn told(self, found: u64) -> RemoveNext
        ensures { result ≡ remove_learn self found }
    {
        match self {
            RemoveAt::Forward => RemoveNext::Goes(RemoveAt::Backward { forward: found }),
            RemoveAt::Backward { forward } => RemoveNext::Goes(RemoveAt::Skip {
                forward,
                backward: found,
            }),
            RemoveAt::Skip { forward, backward } => match link_of(forward) {
                Some(behind) => RemoveNext::Goes(RemoveAt::SkipBack { behind, backward }),
                None => RemoveNext::Out,
            },
            RemoveAt::SkipBack { .. } => RemoveNext::Out,
        }
    }
}
