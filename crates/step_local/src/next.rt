//! The step that comes next.

ghost use Rattle.std.specs.Prelude.{◌≡◌};
ghost use Rattle.step_local.specs.Course.{locate_course, small_course, large_course, course};

use crate::frames::{At, LargeAt, Local, LocateAt, SmallAt};
use crate::slabs::class_of_served;
use pool_words::{Action, Word};
use word_codes::{Kind, MailKey, Next, Own, Public, granule_of};

fn next_locate(at: LocateAt) -> Action
    ensures { result ≡ locate_course at }
{
    match at {
        LocateAt::Region { slot } => Action::Load(Word::Region(slot)),
        LocateAt::Base { slot, .. } => Action::Load(Word::Base(slot)),
    }
}

impl Local {
    fn next_small(&self, at: SmallAt) -> Action
        ensures { result ≡ small_course self.now at }
    {
        let class = class_of_served(self.call.served);
        match at {
            SmallAt::Uncache { slab } => Action::Store(Word::Kind(slab), Kind::Nothing.word()),
            SmallAt::Next { slab } => {
                let key = MailKey {
                    seat: self.seat,
                    class,
                };
                Action::Store(Word::Next(slab), Next::Mailbox(key).word())
            }
            SmallAt::Public { slab } => Action::Swap(Word::Public(slab), Public::Null.word()),
            SmallAt::Own { slab } => Action::Store(Word::Own(slab), Own::Kept(self.seat).word()),
            SmallAt::Kind { slab } => Action::Store(Word::Kind(slab), Kind::Slab(class).word()),
            SmallAt::Behind { head, .. } => Action::Load(Word::Mark(head)),
            SmallAt::Private { head, .. } => Action::Store(Word::Mark(head), self.next_mark()),
            SmallAt::Rest { unit, .. } => Action::Store(Word::Mark(unit), self.next_mark()),
            SmallAt::Empty { slab } => Action::Store(Word::Kind(slab), Kind::Nothing.word()),
            SmallAt::Cache { slab } => Action::Store(Word::Kind(slab), Kind::CachedSlab.word()),
            SmallAt::Oldest { slab } => Action::Store(Word::Kind(slab), Kind::Nothing.word()),
            SmallAt::Newest { slab } => Action::Store(Word::Kind(slab), Kind::Nothing.word()),
        }
    }

    fn next_large(&self, at: LargeAt) -> Action
        ensures { result ≡ large_course self.now at }
    {
        match at {
            LargeAt::Tick => Action::Add(Word::Clock, 1),
            LargeAt::Kind { unit } => {
                Action::Store(Word::Kind(granule_of(unit)), self.kind_got().word())
            }
            LargeAt::Grant { unit } => Action::Store(Word::Mark(unit), self.next_mark()),
        }
    }

    /// The next step. A call that has its answer, and a seat without a call, make none.
    pub fn next(&self) -> Action
        ensures { result ≡ course self.now }
    {
        match self.at {
            At::Idle => Action::Nothing,
            At::Ready(_) => Action::Nothing,
            At::Look(at) => at.next(self.look_call()),
            At::End(at) => at.next(self.end_call()),
            At::Post(at) => at.next(self.post_call()),
            At::Mail(at) => at.next(self.mail_call()),
            At::Mailbox(at) => at.next(self.box_call(at)),
            At::Adopt(at) => at.next(self.adopt_call()),
            At::Join { slab, at, .. } => at.next(self.join_call(slab)),
            At::Spare(at) => at.next(self.spare_call()),
            At::Leave { slab, at } => at.next(self.leave_call(slab)),
            At::Locate(at) => next_locate(at),
            At::Small(at) => self.next_small(at),
            At::Large(at) => self.next_large(at),
            At::Get(at) => at.next(self.cache_call()),
            At::Undo { at, .. } => at.next(self.cache_call()),
            At::Keep(at) => at.next(self.keep_call()),
            At::Sweep(at) => at.next(self.sweep_call()),
            At::Scan(at) => at.next(self.scan_call()),
            At::Cut(at) => at.next(self.cut_call()),
            At::Queue => Action::Load(Word::Queue),
            At::Whole(at) => at.next(self.whole_call()),
            At::Drain(at) => at.next(self.drain_call()),
            At::Put(at) => at.next(self.put_call()),
            At::Office { job, at } => at.next(self.office_call(job)),
            At::Reset(at) => self.next_reset(at),
        }
    }
}
