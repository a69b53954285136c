//! Joining what was given back to a slab to its private list: the public word is swapped for Null, the chain is
//! walked to its last object, and that one is linked to the newest private object.

ghost use Rattle.std.specs.Prelude.{◌≡◌};
ghost use Rattle.public_list.specs.Joining.{join_course, join_learn, join_taken, join_walked};

use pool_words::{Action, Word};
use word_codes::{Mark, Public, private_link};

/// The slab and its newest private object.
#[derive(Clone, Copy)]
pub struct JoinCall {
    pub slab: u64,
    pub head: Option<u64>,
}

/// The step that comes next. Of a chain that was taken, `first` is the first object, and `count` objects of it were
/// walked.
#[derive(Clone, Copy)]
pub enum JoinAt {
    /// All that was given back is taken.
    Take,
    /// The mark of this object of the chain is loaded.
    Walk { first: u64, at: u64, count: u64 },
    /// The last object of the chain is linked to the private list.
    Tie { first: u64, last: u64, count: u64 },
}

#[derive(Clone, Copy)]
pub enum JoinNext {
    Goes(JoinAt),
    /// Nothing was given back.
    Nothing,
    /// So many objects are in front of the private list, of which this is the first.
    Joined { first: u64, count: u64 },
}

impl JoinAt {
    pub fn next(self, call: JoinCall) -> Action
        ensures { result ≡ join_course call self }
    {
        match self {
            JoinAt::Take => Action::Swap(Word::Public(call.slab), Public::Null.word()),
            JoinAt::Walk { at, .. } => Action::Load(Word::Mark(at)),
            JoinAt::Tie { last, .. } => Action::Store(Word::Mark(last), private_link(call.head)),
        }
    }

    pub fn told(self, found: u64) -> JoinNext
        ensures { result ≡ join_learn self found }
    {
        match self {
            JoinAt::Take => join_taken(Public::of_word(found)),
            JoinAt::Walk { first, at, count } => {
                join_walked(first, at, count.saturating_add(1), Mark::of_word(found))
            }
            JoinAt::Tie { first, count, .. } => JoinNext::Joined { first, count },
        }
    }
}

/// What comes of a taking that found this.
fn join_taken(public: Public) -> JoinNext
    ensures { result ≡ join_taken public }
{
    match public {
        Public::Null | Public::Unusable => JoinNext::Nothing,
        Public::Filled(first) => JoinNext::Goes(JoinAt::Walk {
            first,
            at: first,
            count: 0,
        }),
    }
}

/// What comes after the mark of an object of the chain, of which so many were walked with it.
fn join_walked(first: u64, at: u64, count: u64, mark: Mark) -> JoinNext
    ensures { result ≡ join_walked first at count mark }
{
    match mark {
        Mark::Link(next) => JoinNext::Goes(JoinAt::Walk {
            first,
            at: next,
            count,
        }),
        _ => JoinNext::Goes(JoinAt::Tie {
            first,
            last: at,
            count,
        }),
    }
}
