//! Giving an object in hand back to a slab that another keeps: a push on the slab's public word. Who changes
//! that word from Null has to mail the slab.

ghost use Rattle.std.specs.Prelude.{◌≡◌};
ghost use Rattle.public_list.specs.Posting.{post_course, post_learn, post_push, posted};

use chain_words::{PushAt, PushCall, PushNext};
use pool_words::{Action, Word};
use word_codes::{Mark, Public, public_link};

/// A free by a stranger (a remote free): the object's unit, and the slab that it is of.
#[derive(Clone, Copy)]
pub struct PostCall {
    pub unit: u64,
    pub slab: u64,
}

/// The step that comes next.
#[derive(Clone, Copy)]
pub enum PostAt {
    Push(PushAt),
}

#[derive(Clone, Copy)]
pub enum PostNext {
    Goes(PostAt),
    /// The object is listed, behind others or at a slab that nobody keeps.
    Listed,
    /// The object is listed, and the slab is to be mailed.
    Owed,
}

impl PostCall {
    /// The push, once the public word was found to be this.
    fn post_push(self, found: u64) -> PushCall
        ensures { result ≡ post_push self found }
    {
        PushCall {
            head: Word::Public(self.slab),
            link: Word::Mark(self.unit),
            linked: public_link(Public::of_word(found)),
            filled: Public::Filled(self.unit).word(),
        }
    }
}

impl PostAt {
    pub fn next(self, call: PostCall) -> Action
        ensures { result ≡ post_course call self }
    {
        match self {
            PostAt::Push(push) => push.next(call.post_push(push.found())),
        }
    }

    pub fn told(self, found: u64) -> PostNext
        ensures { result ≡ post_learn self found }
    {
        match self {
            PostAt::Push(push) => match push.told(found) {
                PushNext::Goes(push) => PostNext::Goes(PostAt::Push(push)),
                PushNext::Pushed { found } => posted(Public::of_word(found)),
            },
        }
    }
}

/// What comes of a push that replaced this.
fn posted(public: Public) -> PostNext
    ensures { result ≡ posted public }
{
    match public {
        Public::Null => PostNext::Owed,
        Public::Unusable | Public::Filled(_) => PostNext::Listed,
    }
}
