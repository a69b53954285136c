//! Emptying the queue: it is taken whole, and each of its blocks is put again, from the newest on.

ghost use Rattle.std.specs.Prelude.{◌≡◌};
ghost use Rattle.coalescer.specs.Drain.{put_call, goes_on, drain_course, drain_learn};

use crate::put::{PutAt, PutCall, PutNext};
use backend_bins::Block;
use pool_words::{Action, Word};
use word_codes::{END, QueueLink, link_of};

/// The seat, and whether the pool gives regions back that are free.
#[derive(Clone, Copy)]
pub struct DrainCall {
    pub seat: u8,
    pub gives: bool,
}

#[derive(Clone, Copy)]
pub enum DrainAt {
    /// The queue is taken.
    Swap,

    /// The link of a block that was taken is looked at.
    Link { first: u64 },

    /// A block is put; the rest of what was taken begins with this one.
    Put { rest: Option<u64>, at: PutAt },
}

#[derive(Clone, Copy)]
pub enum DrainNext {
    Goes(DrainAt),

    /// Another has this bin's lock.
    Waits(u64),

    /// The block is a whole region, and still in hand. Once it is given back, the drain goes on with the rest.
    Gives { block: Block, rest: Option<u64> },

    /// Nothing is left of what was taken.
    Drained,
}

impl DrainCall {
    /// The put of a block of the queue.
    fn put_call(self) -> PutCall
        ensures { result ≡ put_call self }
    {
        PutCall {
            seat: self.seat,
            drained: true,
            gives: self.gives,
        }
    }
}

impl DrainAt {
    /// The drain goes on with the rest of what was taken.
    pub fn goes_on(rest: Option<u64>) -> DrainNext
        ensures { result ≡ goes_on rest }
    {
        match rest {
            Some(first) => DrainNext::Goes(DrainAt::Link { first }),
            None => DrainNext::Drained,
        }
    }

    pub fn next(self, call: DrainCall) -> Action
        ensures { result ≡ drain_course call self }
    {
        match self {
            DrainAt::Swap => Action::Swap(Word::Queue, END),
            DrainAt::Link { first } => Action::Load(Word::QueueLink(first)),
            DrainAt::Put { at, .. } => at.next(call.put_call()),
        }
    }

    pub fn told(self, call: DrainCall, found: u64) -> DrainNext
        ensures { result ≡ drain_learn call self found }
    {
        match self {
            DrainAt::Swap => DrainAt::goes_on(link_of(found)),
            DrainAt::Link { first } => {
                let link = QueueLink::of_word(found);
                let block = Block {
                    first,
                    granules: link.granules,
                };
                DrainNext::Goes(DrainAt::Put {
                    rest: link.next,
                    at: PutAt::begins(block),
                })
            }
            DrainAt::Put { rest, at } => match at.told(call.put_call(), found) {
                PutNext::Goes(next) => DrainNext::Goes(DrainAt::Put { rest, at: next }),
                PutNext::Waits(bin) => DrainNext::Waits(bin),
                PutNext::Done => DrainAt::goes_on(rest),
                PutNext::Gives(block) => DrainNext::Gives { block, rest },
            },
        }
    }
}
