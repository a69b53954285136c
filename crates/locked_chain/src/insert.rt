//! Putting an item in front of a list that is linked both ways, under the list's lock.

ghost use Rattle.std.specs.Prelude.{◌≡◌};
ghost use Rattle.locked_chain.specs.Insert.{insert_course, insert_learn};

use crate::ListCall;
use pool_words::{Action, Word};
use word_codes::{END, link_of, link_word};

/// What comes next of an insertion. `head` is the word that named the list's first item.
#[derive(Clone, Copy)]
pub enum InsertAt {
    /// The list's first item is looked at.
    Head,

    /// It becomes the one behind the item.
    Forward { head: u64 },

    /// Nothing is before the item.
    Backward { head: u64 },

    /// The item is before the old first one.
    OldBackward { old: u64 },

    /// The item is the list's first.
    NewHead,
}

#[derive(Clone, Copy)]
pub enum InsertNext {
    Goes(InsertAt),
    Inserted,
}

impl InsertAt {
    pub fn next(self, call: ListCall) -> Action
        ensures { result ≡ insert_course call self }
    {
        match self {
            InsertAt::Head => Action::Load(call.head),
            InsertAt::Forward { head } => Action::Store(Word::Forward(call.item), head),
            InsertAt::Backward { .. } => Action::Store(Word::Backward(call.item), END),
            InsertAt::OldBackward { old } => {
                Action::Store(Word::Backward(old), link_word(Some(call.item)))
            }
            InsertAt::NewHead => Action::Store(call.head, link_word(Some(call.item))),
        }
    }

    pub fn told(self, found: u64) -> InsertNext
        ensures { result ≡ insert_learn self found }
    {
        match self {
            InsertAt::Head => InsertNext::Goes(InsertAt::Forward { head: found }),
            InsertAt::Forward { head } => InsertNext::Goes(InsertAt::Backward { head }),
            InsertAt::Backward { head } => match link_of(head) {
                Some(old) => InsertNext::Goes(InsertAt::OldBackward { old }),
                None => InsertNext::Goes(InsertAt::NewHead),
            },
            InsertAt::OldBackward { .. } => InsertNext::Goes(InsertAt::NewHead),
            InsertAt::NewHead => InsertNext::Inserted,
        }
    }
}
