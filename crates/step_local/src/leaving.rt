//! Leaving: a heap gives up all that it keeps, and what asks the backend and puts blocks begin with.

ghost use Rattle.std.specs.Prelude.{◌≡◌};
ghost use Rattle.step_local.specs.Leaving.{slab_block, putting, gives_back, put_call, scan_call, scanning, asking};
ghost use Rattle.step_local.specs.Leaving.{leaving, leave_call, class_at, awaiting, leave_learn_of};

use crate::frames::{Ask, At, Local, PutFor, SmallAt, Tries};
use backend_bins::{Block, ScanCall, Want};
use coalescer::{PutAt, PutCall};
use heap_slabs::Leaving;
use mailbox::BoxAt;
use orphans::{LeaveAt, LeaveCall, LeaveNext};
use pool_types::geometry::SLAB_GRANULES;
use pool_types::{Answer, Turn};

/// The block of a slab.
pub fn slab_block(slab: u64) -> Block
    ensures { result ≡ slab_block slab }
{
    Block {
        first: slab,
        granules: SLAB_GRANULES,
    }
}

impl Local {
    /// A block in hand is to be put.
    pub fn puts(&mut self, why: PutFor, block: Block) -> Turn
        ensures { (self.new, result) ≡ putting self.old why block }
    {
        self.put = why;
        self.goes(At::Put(PutAt::begins(block)))
    }

    /// Whether the pool gives regions back before its end.
    pub fn gives_back(&self) -> bool
        ensures { result ≡ gives_back self.now.key }
    {
        !self.key.fixed && !self.key.keep
    }

    pub fn put_call(&self) -> PutCall
        ensures { result ≡ put_call self.now }
    {
        PutCall {
            seat: self.seat,
            drained: false,
            gives: self.gives_back(),
        }
    }

    pub fn scan_call(&self) -> ScanCall
        ensures { result ≡ scan_call self.now }
    {
        ScanCall {
            seat: self.seat,
            want: self.ask.want,
        }
    }

    /// All bins are looked at, from the first that can have the piece.
    pub fn scans(&mut self) -> Turn
        ensures { (self.new, result) ≡ scanning self.old }
    {
        let at = self.scan_call().begins();
        self.goes(At::Scan(at))
    }

    /// The backend is asked for a piece.
    pub fn asks(&mut self, want: Want) -> Turn
        ensures { (self.new, result) ≡ asking self.old want }
    {
        self.ask = Ask {
            want,
            tries: Tries::First,
            block: Block {
                first: 0,
                granules: 0,
            },
            refused: None,
        };
        self.scans()
    }

    /// The heap gives up one more thing, or has left.
    pub fn leaves(&mut self) -> Turn
        ensures { (self.new, result) ≡ leaving self.old }
    {
        match self.heap.next_to_leave() {
            Leaving::Cached(slab) => self.goes(At::Small(SmallAt::Newest { slab })),
            Leaving::Unused(kept) => self.goes(At::Small(SmallAt::Empty { slab: kept.slab })),
            Leaving::Held(kept) => self.goes(At::Leave {
                slab: kept.slab,
                at: LeaveAt::Close,
            }),
            Leaving::Nothing => self.answers(Answer::Exited),
        }
    }

    /// What the leaving of a slab is about.
    pub fn leave_call(&self, slab: u64) -> LeaveCall
        ensures { result ≡ leave_call self.now slab }
    {
        match self.heap.slabs.find(slab) {
            Some(kept) => LeaveCall {
                slab,
                class: kept.class,
                header: kept.to_header(),
            },
            None => LeaveCall {
                slab,
                class: 0,
                header: 0,
            },
        }
    }

    fn class_at(&self, slab: u64) -> u8
        ensures { result ≡ class_at self.now slab }
    {
        match self.heap.slabs.find(slab) {
            Some(kept) => kept.class,
            None => 0,
        }
    }

    /// The slab is mailed, or is to be: it is awaited in its class's mailbox.
    fn awaits(&mut self, slab: u64, class: u8) -> Turn
        ensures { (self.new, result) ≡ awaiting self.old slab class }
    {
        self.fetch.class = class;
        self.fetch.awaited = slab;
        self.fetch.came = false;
        self.goes(At::Mailbox(BoxAt::Take))
    }

    pub fn told_leave(&mut self, slab: u64, at: LeaveAt, found: u64) -> Turn
        ensures { (self.new, result) ≡ leave_learn_of self.old slab at found }
    {
        match at.told(found) {
            LeaveNext::Goes(next) => self.goes(At::Leave { slab, at: next }),
            LeaveNext::Filled => {
                let class = self.class_at(slab);
                self.awaits(slab, class)
            }
            LeaveNext::Left => {
                self.heap.slabs.remove(slab);
                self.leaves()
            }
        }
    }
}
