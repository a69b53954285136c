//! Mailing a slab: its next word says which mailbox it goes to, and then it is pushed there.

ghost use Rattle.std.specs.Prelude.{◌≡◌};
ghost use Rattle.mailbox.specs.Mailing.{mail_course, mail_learn, mailed, slab_push};

use chain_words::{PushAt, PushCall, PushNext};
use pool_words::{Action, Word};
use word_codes::{MailKey, Next, link_of, link_word};

/// The slab that is to be mailed.
#[derive(Clone, Copy)]
pub struct MailCall {
    pub slab: u64,
}

/// The step that comes next.
#[derive(Clone, Copy)]
pub enum MailAt {
    /// The slab's next word is loaded.
    Next,
    /// The slab is pushed into this mailbox.
    Push { key: MailKey, push: PushAt },
}

#[derive(Clone, Copy)]
pub enum MailNext {
    Goes(MailAt),
    Mailed,
}

/// The push of a slab onto a chain of slabs, once the chain's head was found to be this.
pub fn slab_push(head: Word, slab: u64, found: u64) -> PushCall
    ensures { result ≡ slab_push head slab found }
{
    PushCall {
        head,
        link: Word::Next(slab),
        linked: Next::Link(link_of(found)).word(),
        filled: link_word(Some(slab)),
    }
}

impl MailAt {
    pub fn next(self, call: MailCall) -> Action
        ensures { result ≡ mail_course call self }
    {
        match self {
            MailAt::Next => Action::Load(Word::Next(call.slab)),
            MailAt::Push { key, push } => {
                push.next(slab_push(key.mailbox(), call.slab, push.found()))
            }
        }
    }

    pub fn told(self, found: u64) -> MailNext
        ensures { result ≡ mail_learn self found }
    {
        match self {
            MailAt::Next => MailNext::Goes(MailAt::Push {
                key: Next::of_word(found).mail_key(),
                push: PushAt::Look,
            }),
            MailAt::Push { key, push } => mailed(key, push.told(found)),
        }
    }
}

/// What comes of a step of the push.
fn mailed(key: MailKey, next: PushNext) -> MailNext
    ensures { result ≡ mailed key next }
{
    match next {
        PushNext::Goes(push) => MailNext::Goes(MailAt::Push { key, push }),
        PushNext::Pushed { .. } => MailNext::Mailed,
    }
}
