//! Large objects: ticks, the cache, cleanups, and where an object lies in its block.

ghost use Rattle.std.specs.Prelude.{◌≡◌};
ghost use Rattle.step_local.specs.Large.{granules_of_served, sweeping, got_block, cached, ticked, swept, emptying};
ghost use Rattle.step_local.specs.Large.{next_bin, releasing, sweep_call, sweep_learn_of, cache_call, get_learn_of};
ghost use Rattle.step_local.specs.Large.{undo_learn_of, keep_call, kept_as, keep_learn_of, large_learn, object_in};
ghost use Rattle.step_local.specs.Large.{located_index, slot_looked, locate_learn, located_as};
ghost use Rattle.heap_slabs.specs.Slabs.{record_at};

use crate::frames::{
    At, LAST_CACHE_BIN, LargeAt, Local, LocateAt, PutFor, Served, SmallAt, Stage, Sweep,
};
use backend_bins::{Block, Want};
use coalescer::DrainAt;
use heap_slabs::Wanted;
use heap_slabs::records::unit_of;
use large_cache::{
    CacheCall, Cleanup, GetAt, GetNext, KeepAt, KeepCall, KeepNext, SweepAt, SweepCall, SweepNext,
    UndoAt, UndoNext,
};
use pool_types::{Answer, Awaited, NullCause, Turn};
use word_codes::RegionWord;

/// At each tick that is a multiple of this a regular cleanup is made.
const CLEANUP_TICKS: u64 = 256;

/// The last slot of a region.
const LAST_SLOT: u64 = 63;

/// The granules of the block that is got; 0 for a small object.
pub fn granules_of_served(served: Served) -> u64
    ensures { result ≡ granules_of_served served }
{
    match served {
        Served::Small { .. } => 0,
        Served::Large { granules, .. } => granules,
    }
}

impl Local {
    /// All blocks of the cache are looked through, from the bin of one granule on.
    pub fn sweeps(&mut self, cleanup: Cleanup, at: SweepAt) -> Turn
        ensures { (self.new, result) ≡ sweeping self.old cleanup at }
    {
        self.sweep = Sweep {
            cleanup,
            granules: 1,
            time: self.call.time,
        };
        self.goes(At::Sweep(at))
    }

    /// The cache has been asked, with the cleanup that was due.
    fn has_asked_cache(&mut self) -> Turn
        ensures { (self.new, result) ≡ got_block self.old }
    {
        if self.call.missed {
            let granules = granules_of_served(self.call.served);
            return self.asks(Want {
                granules,
                slab: false,
            });
        }
        self.locates()
    }

    /// The cache has been asked, or has taken a block, with the cleanup that was due.
    fn has_cached(&mut self) -> Turn
        ensures { (self.new, result) ≡ cached self.old }
    {
        match self.call.stage {
            Stage::Getting => self.has_asked_cache(),
            _ => self.has_ended(),
        }
    }

    /// A regular cleanup, where it is due.
    pub fn has_ticked(&mut self) -> Turn
        ensures { (self.new, result) ≡ ticked self.old }
    {
        if self.call.time % CLEANUP_TICKS == 0 {
            return self.sweeps(Cleanup::Regular, SweepAt::Peek);
        }
        self.has_cached()
    }

    /// A cleanup is done: a call that could not have a block empties the queue, and scans again.
    fn has_swept(&mut self) -> Turn
        ensures { (self.new, result) ≡ swept self.old self.old.sweep.cleanup }
    {
        match self.sweep.cleanup {
            Cleanup::Regular => self.has_cached(),
            Cleanup::Soft => self.goes(At::Drain(DrainAt::Swap)),
            Cleanup::Hard => self.goes(At::Drain(DrainAt::Swap)),
        }
    }

    /// A hard cleanup goes on with the heap's cached slabs, and then with its slabs without a held object.
    pub fn empties_heap(&mut self) -> Turn
        ensures { (self.new, result) ≡ emptying self.old }
    {
        if let Some(slab) = self.heap.cached.newest() {
            return self.goes(At::Small(SmallAt::Newest { slab }));
        }
        match self.heap.slabs.first_from(Wanted::Unused, 0) {
            Some(kept) => self.goes(At::Small(SmallAt::Empty { slab: kept.slab })),
            None => self.has_swept(),
        }
    }

    /// The next bin.
    fn sweeps_on(&mut self) -> Turn
        ensures { (self.new, result) ≡ next_bin self.old }
    {
        if self.sweep.granules < LAST_CACHE_BIN {
            self.sweep.granules += 1;
            return self.goes(At::Sweep(SweepAt::Peek));
        }
        match self.sweep.cleanup {
            Cleanup::Regular => self.has_swept(),
            Cleanup::Soft => self.has_swept(),
            Cleanup::Hard => self.empties_heap(),
        }
    }

    /// What was released is put, the oldest first, before the next bin is looked at.
    pub fn releases(&mut self) -> Turn
        ensures { (self.new, result) ≡ releasing self.old }
    {
        let granules = self.sweep.granules;
        match self.released.newest() {
            Some(first) => {
                self.released.pop();
                self.puts(PutFor::Swept, Block { first, granules })
            }
            None => self.sweeps_on(),
        }
    }

    pub fn sweep_call(&self) -> SweepCall
        ensures { result ≡ sweep_call self.now }
    {
        SweepCall {
            seat: self.seat,
            granules: self.sweep.granules,
            time: self.sweep.time,
            cleanup: self.sweep.cleanup,
        }
    }

    pub fn told_sweep(&mut self, at: SweepAt, found: u64) -> Turn
        ensures { (self.new, result) ≡ sweep_learn_of self.old at found }
    {
        match at.told(self.sweep_call(), found) {
            SweepNext::Goes(next) => self.goes(At::Sweep(next)),
            SweepNext::Stays { at: next } => {
                self.released.clear();
                self.goes(At::Sweep(next))
            }
            SweepNext::Stale { block, at: next } => {
                self.released.push(block);
                self.goes(At::Sweep(next))
            }
            SweepNext::Waits => {
                let bin = (self.sweep.granules % 65536) as u16;
                self.waits(At::Sweep(at), Awaited::CacheLock(bin))
            }
            SweepNext::Began { time } => {
                self.sweep.time = time;
                self.goes(At::Sweep(SweepAt::Peek))
            }
            SweepNext::Passed => self.sweeps_on(),
            SweepNext::Swept => self.releases(),
        }
    }

    pub fn cache_call(&self) -> CacheCall
        ensures { result ≡ cache_call self.now }
    {
        CacheCall {
            seat: self.seat,
            granules: granules_of_served(self.call.served),
            time: self.call.time,
        }
    }

    pub fn told_get(&mut self, at: GetAt, found: u64) -> Turn
        ensures { (self.new, result) ≡ get_learn_of self.old at found }
    {
        let granules = granules_of_served(self.call.served);
        match at.told(found) {
            GetNext::Goes(next) => self.goes(At::Get(next)),
            GetNext::Waits => {
                let bin = (granules % 65536) as u16;
                self.waits(At::Get(at), Awaited::CacheLock(bin))
            }
            GetNext::Took { block: first } => {
                self.call.missed = false;
                self.call.block = Block { first, granules };
                self.has_ticked()
            }
            GetNext::Missed => {
                self.call.missed = true;
                self.has_ticked()
            }
        }
    }

    pub fn told_undo(&mut self, cause: NullCause, at: UndoAt, found: u64) -> Turn
        ensures { (self.new, result) ≡ undo_learn_of self.old cause at found }
    {
        match at.told(found) {
            UndoNext::Goes(next) => self.goes(At::Undo { cause, at: next }),
            UndoNext::Waits => {
                let bin = (granules_of_served(self.call.served) % 65536) as u16;
                self.waits(At::Undo { cause, at }, Awaited::CacheLock(bin))
            }
            UndoNext::Undone => self.answers(Answer::Null(cause)),
        }
    }

    pub fn keep_call(&self) -> KeepCall
        ensures { result ≡ keep_call self.now }
    {
        KeepCall {
            seat: self.seat,
            granules: self.call.block.granules,
            time: self.call.time,
            block: self.call.block.first,
        }
    }

    fn has_kept(&mut self, released: Option<u64>) -> Turn
        ensures { (self.new, result) ≡ kept_as self.old released }
    {
        let granules = self.call.block.granules;
        match released {
            Some(first) => self.puts(PutFor::Released, Block { first, granules }),
            None => self.has_ticked(),
        }
    }

    pub fn told_keep(&mut self, at: KeepAt, found: u64) -> Turn
        ensures { (self.new, result) ≡ keep_learn_of self.old at found }
    {
        match at.told(found) {
            KeepNext::Goes(next) => self.goes(At::Keep(next)),
            KeepNext::Waits => {
                let bin = (self.call.block.granules % 65536) as u16;
                self.waits(At::Keep(at), Awaited::CacheLock(bin))
            }
            KeepNext::Kept { released } => self.has_kept(released),
        }
    }

    pub fn told_large(&mut self, at: LargeAt, found: u64) -> Turn
        ensures { (self.new, result) ≡ large_learn self.old at found }
    {
        match at {
            LargeAt::Tick => {
                self.call.time = found.wrapping_add(1);
                match self.call.stage {
                    Stage::Getting => self.goes(At::Get(GetAt::Lock)),
                    _ => self.goes(At::Keep(KeepAt::Lock)),
                }
            }
            LargeAt::Kind { unit } => self.goes(At::Large(LargeAt::Grant { unit })),
            LargeAt::Grant { unit } => self.has_got(unit),
        }
    }

    /// The index of which the region is looked up.
    fn located_index(&self) -> u64
        ensures { result ≡ located_index self.now self.now.call.served }
    {
        match self.call.served {
            Served::Small { .. } => self.call.slab,
            Served::Large { .. } => self.call.block.first,
        }
    }

    fn looks_at_slot(&mut self, slot: u64, region: u64) -> Turn
        ensures { (self.new, result) ≡ slot_looked self.old slot region }
    {
        let index = self.located_index();
        if !RegionWord::of_word(region).has_granule(index) && slot < LAST_SLOT {
            return self.goes(At::Locate(LocateAt::Region { slot: slot + 1 }));
        }
        self.goes(At::Locate(LocateAt::Base { slot, region }))
    }

    /// Where a slab's next object is: its newest private one, or in its rest.
    fn finds_object(&mut self, slab: u64) -> Turn
        ensures { (self.new, result) ≡ object_in self.old slab (record_at self.old.heap.slabs.records slab) }
    {
        let Some(kept) = self.heap.slabs.find(slab) else {
            return self.goes(At::Small(SmallAt::Rest { slab, unit: 0 }));
        };
        match kept.head {
            Some(head) => self.goes(At::Small(SmallAt::Behind { slab, head })),
            None => {
                let unit = unit_of(slab, kept.class, kept.handed);
                self.goes(At::Small(SmallAt::Rest { slab, unit }))
            }
        }
    }

    fn has_located(&mut self, region: u64, base: u64) -> Turn
        ensures { (self.new, result) ≡ located_as self.old region base self.old.call.served }
    {
        match self.call.served {
            Served::Small { .. } => {
                let slab = self.call.slab;
                self.finds_object(slab)
            }
            Served::Large { alignment, .. } => {
                let first = self.call.block.first;
                let unit = RegionWord::of_word(region).large_unit(base, first, alignment);
                self.goes(At::Large(LargeAt::Kind { unit }))
            }
        }
    }

    pub fn told_locate(&mut self, at: LocateAt, found: u64) -> Turn
        ensures { (self.new, result) ≡ locate_learn self.old at found }
    {
        match at {
            LocateAt::Region { slot } => self.looks_at_slot(slot, found),
            LocateAt::Base { region, .. } => {
                self.call.region = region;
                self.has_located(region, found)
            }
        }
    }
}
