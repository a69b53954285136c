//! Taking the queue's blocks: it is taken whole, and each block comes out of it, from the newest on.

ghost use Rattle.std.specs.Prelude.{◌≡◌};
ghost use Rattle.reset_steps.specs.Unqueue.{unqueue_from, unqueue_course, unqueue_learn};

use backend_bins::Block;
use pool_words::{Action, Word};
use word_codes::{END, QueueLink, link_of};

#[derive(Clone, Copy)]
pub enum UnqueueAt {
    /// The queue is taken.
    Take,

    /// The link of a block that was taken is looked at.
    Link { first: u64 },
}

#[derive(Clone, Copy)]
pub enum UnqueueNext {
    Goes(UnqueueAt),

    /// This block comes next; the rest of what was taken begins with the other.
    Out { block: Block, rest: Option<u64> },

    /// Nothing is left of what was taken.
    Emptied,
}

impl UnqueueAt {
    /// The rest of what was taken.
    pub fn goes_on(rest: Option<u64>) -> UnqueueNext
        ensures { result ≡ unqueue_from rest }
    {
        match rest {
            Some(first) => UnqueueNext::Goes(UnqueueAt::Link { first }),
            None => UnqueueNext::Emptied,
        }
    }

    pub fn next(self) -> Action
        ensures { result ≡ unqueue_course self }
    {
        match self {
            UnqueueAt::Take => Action::Swap(Word::Queue, END),
            UnqueueAt::Link { first } => Action::Load(Word::QueueLink(first)),
        }
    }

    pub fn told(self, found: u64) -> UnqueueNext
        ensures { result ≡ unqueue_learn self found }
    {
        match self {
            UnqueueAt::Take => UnqueueAt::goes_on(link_of(found)),
            UnqueueAt::Link { first } => {
                let link = QueueLink::of_word(found);
                let block = Block {
                    first,
                    granules: link.granules,
                };
                UnqueueNext::Out {
                    block,
                    rest: link.next,
                }
            }
        }
    }
}
