//! Small objects: where one is looked for, what comes by mail and of orphans, and slabs that begin and end.

ghost use Rattle.std.specs.Prelude.{◌≡◌};
ghost use Rattle.step_local.specs.Slabs.{locating, looking_on, getting_small, class_of_served, fetched, with_joined};
ghost use Rattle.step_local.specs.Slabs.{mailed_on, slab_came, box_head, box_call, box_learn_of, spares_back};
ghost use Rattle.step_local.specs.Slabs.{spared_on, adopt_call, adopt_learn_of, adopting_on, slab_adopted, join_call};
ghost use Rattle.step_local.specs.Slabs.{join_learn_of, spare_call, spare_learn_of, with_taken, surplus_left};
ghost use Rattle.step_local.specs.Slabs.{slab_cached, slab_emptied, newest_given, adopts_enough, slab_begun};
ghost use Rattle.step_local.specs.Slabs.{below_in, small_learn};

use crate::frames::{At, Local, LocateAt, PutFor, Served, SmallAt, Stage, Tried};
use crate::leaving::slab_block;
use backend_bins::Want;
use chain_words::PushAt;
use heap_slabs::{HeapSlab, Wanted};
use mailbox::{BoxAt, BoxCall, BoxNext};
use orphans::{AdoptAt, AdoptCall, AdoptNext, LeaveAt, LeaveCall, LeaveNext};
use pool_types::geometry::SLAB_GRANULES;
use pool_types::{Answer, Awaited, Turn};
use public_list::{JoinAt, JoinCall, JoinNext};
use word_codes::Mark;

/// Where the mark of a private object leads.
fn below_in(mark: Mark) -> Option<u64>
    ensures { result ≡ below_in mark }
{
    match mark {
        Mark::Link(unit) => Some(unit),
        _ => None,
    }
}

/// The class of the objects that are served; 0 for a large one.
pub fn class_of_served(served: Served) -> u8
    ensures { result ≡ class_of_served served }
{
    match served {
        Served::Small { class } => class,
        Served::Large { .. } => 0,
    }
}

impl Local {
    /// The region of an index is looked up, from the first slot on.
    pub fn locates(&mut self) -> Turn
        ensures { (self.new, result) ≡ locating self.old }
    {
        self.goes(At::Locate(LocateAt::Region { slot: 0 }))
    }

    /// The first slab of the class with an object gives it.
    pub fn gets_small(&mut self, class: u8) -> Turn
        ensures { (self.new, result) ≡ getting_small self.old class }
    {
        match self.heap.slabs.first_of_class(Wanted::WithObject, class) {
            Some(kept) => {
                self.call.slab = kept.slab;
                self.locates()
            }
            None => self.looks_on(class),
        }
    }

    /// No slab has an object: the mailbox is looked into, then the orphans, then a cached slab is begun, then the
    /// backend is asked.
    fn looks_on(&mut self, class: u8) -> Turn
        ensures { (self.new, result) ≡ looking_on self.old class self.old.call.tried }
    {
        match self.call.tried {
            Tried::Nothing => {
                self.call.tried = Tried::Mailbox;
                self.fetch.class = class;
                self.fetch.came = false;
                self.goes(At::Mailbox(BoxAt::Take))
            }
            Tried::Mailbox => {
                self.call.tried = Tried::Orphans;
                self.goes(At::Adopt(AdoptAt::Take))
            }
            Tried::Orphans => match self.heap.cached.newest() {
                Some(slab) => self.goes(At::Small(SmallAt::Uncache { slab })),
                None => self.asks(Want {
                    granules: SLAB_GRANULES,
                    slab: true,
                }),
            },
        }
    }

    /// The mailbox, or the orphans, have been dealt with.
    fn has_fetched(&mut self) -> Turn
        ensures { (self.new, result) ≡ fetched self.old }
    {
        match self.call.stage {
            Stage::Getting => {
                let class = class_of_served(self.call.served);
                self.gets_small(class)
            }
            Stage::Leaving => {
                if self.fetch.came {
                    return self.leaves();
                }
                let awaited = (self.fetch.awaited % 4294967296) as u32;
                self.waits(At::Mailbox(BoxAt::Take), Awaited::Mail(awaited))
            }
            Stage::Resetting(stage) => self.resets_on(stage),
            _ => self.answers(Answer::Exited),
        }
    }

    /// What was given back to a slab is joined to its private objects.
    fn joins(&mut self, slab: u64, first: u64, count: u64)
        ensures { self.new ≡ with_joined self.old slab first count }
    {
        self.heap.slabs.join_of(slab, first, count);
    }

    /// The mailbox's next slab.
    fn mails_on(&mut self, rest: Option<u64>) -> Turn
        ensures { (self.new, result) ≡ mailed_on self.old rest }
    {
        match rest {
            Some(slab) => self.goes(At::Mailbox(BoxAt::Next { slab })),
            None => self.has_fetched(),
        }
    }

    fn has_come(&mut self, slab: u64, rest: Option<u64>) -> Turn
        ensures { (self.new, result) ≡ slab_came self.old slab rest }
    {
        self.fetch.came = self.fetch.came || slab == self.fetch.awaited;
        self.mails_on(rest)
    }

    pub fn box_call(&self, at: BoxAt) -> BoxCall
        ensures { result ≡ box_call self.now at }
    {
        let head = match at {
            BoxAt::Join { slab, .. } => self.head_at(slab),
            _ => None,
        };
        BoxCall {
            seat: self.seat,
            class: self.fetch.class,
            head,
        }
    }

    pub fn told_box(&mut self, at: BoxAt, found: u64) -> Turn
        ensures { (self.new, result) ≡ box_learn_of self.old at found }
    {
        match at.told(found) {
            BoxNext::Goes(next) => self.goes(At::Mailbox(next)),
            BoxNext::Empty => self.has_fetched(),
            BoxNext::Unchanged { slab, rest } => self.has_come(slab, rest),
            BoxNext::Joined {
                slab,
                first,
                count,
                rest,
            } => self.comes_joined(slab, first, count, rest),
        }
    }

    fn comes_joined(&mut self, slab: u64, first: u64, count: u64, rest: Option<u64>) -> Turn
        ensures { (self.new, result) ≡ slab_came (with_joined self.old slab first count) slab rest }
    {
        self.joins(slab, first, count);
        self.has_come(slab, rest)
    }

    /// Orphans that were not adopted are pushed back, the last one first.
    fn spares_back(&mut self) -> Turn
        ensures { (self.new, result) ≡ spares_back self.old }
    {
        match self.heap.spares.pop() {
            Some(slab) => {
                self.fetch.spare = slab;
                self.goes(At::Spare(LeaveAt::Push(PushAt::Look)))
            }
            None => self.has_fetched(),
        }
    }

    pub fn adopt_call(&self) -> AdoptCall
        ensures { result ≡ adopt_call self.now }
    {
        AdoptCall {
            seat: self.seat,
            class: self.fetch.class,
        }
    }

    pub fn told_adopt(&mut self, at: AdoptAt, found: u64) -> Turn
        ensures { (self.new, result) ≡ adopt_learn_of self.old at found }
    {
        match at.told(found) {
            AdoptNext::Goes(next) => self.goes(At::Adopt(next)),
            AdoptNext::Empty => self.has_fetched(),
            AdoptNext::Adopted { slab, header, rest } => {
                let adopted = HeapSlab::of_header(slab, self.fetch.class, header);
                self.heap.slabs.add(adopted);
                self.goes(At::Join {
                    slab,
                    rest,
                    at: JoinAt::Take,
                })
            }
            AdoptNext::Spared { slab, rest } => {
                self.heap.spares.push(slab);
                self.spares_on(rest)
            }
        }
    }

    fn spares_on(&mut self, rest: Option<u64>) -> Turn
        ensures { (self.new, result) ≡ spared_on self.old rest }
    {
        match rest {
            Some(slab) => self.goes(At::Adopt(AdoptAt::Spare { slab })),
            None => self.spares_back(),
        }
    }

    fn gives_object(&self, slab: u64) -> bool
        ensures { result ≡ adopts_enough self.now slab }
    {
        match self.heap.slabs.find(slab) {
            Some(kept) => kept.has_object(),
            None => false,
        }
    }

    /// Another slab is adopted where this one is not enough, and else the others are spared.
    fn adopts_on(&mut self, enough: bool, rest: Option<u64>) -> Turn
        ensures { (self.new, result) ≡ adopting_on self.old enough rest }
    {
        match rest {
            Some(slab) => {
                if enough {
                    self.goes(At::Adopt(AdoptAt::Spare { slab }))
                } else {
                    self.goes(At::Adopt(AdoptAt::Header { slab }))
                }
            }
            None => self.has_fetched(),
        }
    }

    /// An adopted slab has been joined: with an object it is the last one that is adopted. A reset adopts all of them,
    /// one by one.
    fn has_adopted(&mut self, slab: u64, rest: Option<u64>) -> Turn
        ensures { (self.new, result) ≡ slab_adopted self.old slab rest }
    {
        match self.call.stage {
            Stage::Resetting(_) => self.has_adopted_orphan(slab, rest),
            _ => {
                let enough = self.gives_object(slab);
                self.adopts_on(enough, rest)
            }
        }
    }

    pub fn join_call(&self, slab: u64) -> JoinCall
        ensures { result ≡ join_call self.now slab }
    {
        JoinCall {
            slab,
            head: self.head_at(slab),
        }
    }

    pub fn told_join(&mut self, slab: u64, rest: Option<u64>, at: JoinAt, found: u64) -> Turn
        ensures { (self.new, result) ≡ join_learn_of self.old slab rest at found }
    {
        match at.told(found) {
            JoinNext::Goes(next) => self.goes(At::Join {
                slab,
                rest,
                at: next,
            }),
            JoinNext::Nothing => self.has_adopted(slab, rest),
            JoinNext::Joined { first, count } => {
                self.joins(slab, first, count);
                self.has_adopted(slab, rest)
            }
        }
    }

    pub fn spare_call(&self) -> LeaveCall
        ensures { result ≡ spare_call self.now }
    {
        LeaveCall {
            slab: self.fetch.spare,
            class: self.fetch.class,
            header: 0,
        }
    }

    pub fn told_spare(&mut self, at: LeaveAt, found: u64) -> Turn
        ensures { (self.new, result) ≡ spare_learn_of self.old at found }
    {
        match at.told(found) {
            LeaveNext::Goes(next) => self.goes(At::Spare(next)),
            LeaveNext::Filled => self.spares_back(),
            LeaveNext::Left => self.spares_back(),
        }
    }

    /// An object of the slab is taken.
    fn takes(&mut self, slab: u64, below: Option<u64>)
        ensures { self.new ≡ with_taken self.old slab below }
    {
        self.heap.slabs.take_of(slab, below);
    }

    /// The oldest cached slabs go to the backend, as many as are too many.
    pub fn gives_surplus(&mut self) -> Turn
        ensures { (self.new, result) ≡ surplus_left self.old }
    {
        if self.call.surplus == 0 {
            return self.has_ended();
        }
        match self.heap.cached.oldest() {
            Some(slab) => self.goes(At::Small(SmallAt::Oldest { slab })),
            None => self.has_ended(),
        }
    }

    fn caches(&mut self, slab: u64) -> Turn
        ensures { (self.new, result) ≡ slab_cached self.old slab }
    {
        self.heap.cached.shelve(slab);
        self.call.surplus = self.heap.cached.surplus();
        self.gives_surplus()
    }

    /// A slab without a held object is cached, or its block is put.
    fn empties(&mut self, slab: u64) -> Turn
        ensures { (self.new, result) ≡ slab_emptied self.old slab }
    {
        self.heap.slabs.remove(slab);
        match self.call.stage {
            Stage::Getting => self.puts(PutFor::Emptied, slab_block(slab)),
            Stage::Leaving => self.puts(PutFor::Left, slab_block(slab)),
            Stage::Resetting(stage) => self.bins(stage, slab_block(slab)),
            _ => self.goes(At::Small(SmallAt::Cache { slab })),
        }
    }

    /// The newest cached slab is given up.
    fn gives_newest(&mut self, slab: u64) -> Turn
        ensures { (self.new, result) ≡ newest_given self.old slab self.old.call.stage }
    {
        match self.call.stage {
            Stage::Leaving => self.puts(PutFor::Left, slab_block(slab)),
            Stage::Resetting(stage) => self.bins(stage, slab_block(slab)),
            _ => self.puts(PutFor::Emptied, slab_block(slab)),
        }
    }

    fn begins_slab(&mut self, slab: u64) -> Turn
        ensures { (self.new, result) ≡ slab_begun self.old slab }
    {
        let class = class_of_served(self.call.served);
        self.heap.slabs.add(HeapSlab::begun(slab, class));
        self.call.slab = slab;
        self.locates()
    }

    pub fn told_small(&mut self, at: SmallAt, found: u64) -> Turn
        ensures { (self.new, result) ≡ small_learn self.old at found }
    {
        match at {
            SmallAt::Uncache { slab } => {
                self.heap.cached.unshelve_newest();
                self.goes(At::Small(SmallAt::Next { slab }))
            }
            SmallAt::Next { slab } => self.goes(At::Small(SmallAt::Public { slab })),
            SmallAt::Public { slab } => self.goes(At::Small(SmallAt::Own { slab })),
            SmallAt::Own { slab } => self.goes(At::Small(SmallAt::Kind { slab })),
            SmallAt::Kind { slab } => self.begins_slab(slab),
            SmallAt::Behind { slab, head } => {
                let below = below_in(Mark::of_word(found));
                self.goes(At::Small(SmallAt::Private { slab, head, below }))
            }
            SmallAt::Private { slab, head, below } => {
                self.takes(slab, below);
                self.has_got(head)
            }
            SmallAt::Rest { slab, unit } => {
                self.takes(slab, None);
                self.has_got(unit)
            }
            SmallAt::Empty { slab } => self.empties(slab),
            SmallAt::Cache { slab } => self.caches(slab),
            SmallAt::Oldest { slab } => {
                self.heap.cached.unshelve_oldest();
                self.call.surplus = self.call.surplus.saturating_sub(1);
                self.puts(PutFor::Surplus, slab_block(slab))
            }
            SmallAt::Newest { slab } => {
                self.heap.cached.unshelve_newest();
                self.gives_newest(slab)
            }
        }
    }
}
