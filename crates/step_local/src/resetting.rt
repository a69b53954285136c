//! A reset: what is held is freed, what keeps blocks is emptied, and each region becomes one free block.

ghost use Rattle.std.specs.Prelude.{◌≡◌};
ghost use Rattle.step_local.specs.Resetting.{resetting, reset_gone, binning, binning_call, stripping, strip_call};
ghost use Rattle.step_local.specs.Resetting.{stripping_from, strip_learn_of, class_begun, slab_given, first_fetched};
ghost use Rattle.step_local.specs.Resetting.{heap_on, seeking, next_class, orphans_on, orphan_adopted, region_block};
ghost use Rattle.step_local.specs.Resetting.{evict_call, evicting, evicting_from, evict_learn_of, clearing};
ghost use Rattle.step_local.specs.Resetting.{bin_cleared};
ghost use Rattle.step_local.specs.Resetting.{uncaching, clear_call, clear_learn_of, unqueuing, unite_call, uniting};
ghost use Rattle.step_local.specs.Resetting.{uniting_from, unite_learn_of, region_found, regions_passed, sought_as};
ghost use Rattle.step_local.specs.Resetting.{reset_on, binned_at, binned_as, reset_course, reset_learn_of};

use crate::frames::{At, LAST_CACHE_BIN, Local, ResetAt, ResetStage, SmallAt, Stage};
use backend_bins::{BinAt, BinCall, BinJob, BinNext, Block, bin_of};
use heap_slabs::{HeapSlab, Wanted};
use mailbox::BoxAt;
use orphans::AdoptAt;
use pool_types::geometry::CLASSES;
use pool_types::limits::REGION_NUMBERS;
use pool_types::{Answer, Awaited, Turn};
use pool_words::Action;
use reset_steps::{
    ClearAt, ClearCall, ClearNext, EvictAt, EvictCall, EvictNext, Number, Seek, SeekAt, SeekNext,
    StripAt, StripNext, UniteAt, UniteCall, UniteNext, UnqueueAt, UnqueueNext,
};
use word_codes::RegionWord;

/// The number of the last class.
const LAST_CLASS: u8 = CLASSES as u8 - 1;

/// The granules of a region.
fn region_block(region: RegionWord) -> Block
    ensures { result ≡ region_block region }
{
    Block {
        first: region.first,
        granules: region.granules,
    }
}

impl Local {
    /// The reset has come so far.
    pub fn is_resetting(&mut self, stage: ResetStage)
        ensures { self.new ≡ resetting self.old stage }
    {
        self.call.stage = Stage::Resetting(stage);
    }

    fn goes_reset(&mut self, at: ResetAt) -> Turn
        ensures { (self.new, result) ≡ reset_gone self.old at }
    {
        self.goes(At::Reset(at))
    }

    /// A block in hand is put into its bin, and then comes what the stage says.
    pub fn bins(&mut self, stage: ResetStage, block: Block) -> Turn
        ensures { (self.new, result) ≡ binning self.old stage block }
    {
        self.is_resetting(stage);
        self.call.block = block;
        self.goes_reset(ResetAt::Bin(BinAt::Lock))
    }

    fn binning_call(&self) -> BinCall
        ensures { result ≡ binning_call self.now }
    {
        BinCall {
            seat: self.seat,
            block: self.call.block,
            job: BinJob::Insert,
        }
    }

    /// The objects of a slab that are held are freed, and then the slab ends.
    fn strips(&mut self, slab: u64, at: Option<StripAt>) -> Turn
        ensures { (self.new, result) ≡ stripping self.old slab at }
    {
        match at {
            Some(at) => self.goes_reset(ResetAt::Strip { slab, at }),
            None => self.goes(At::Small(SmallAt::Empty { slab })),
        }
    }

    fn strip_call(&self, slab: u64) -> HeapSlab
        ensures { result ≡ strip_call self.now slab }
    {
        match self.heap.slabs.find(slab) {
            Some(kept) => kept,
            None => HeapSlab::begun(slab, 0),
        }
    }

    fn strips_from(&mut self, slab: u64, object: u64) -> Turn
        ensures { (self.new, result) ≡ stripping_from self.old slab object }
    {
        let at = StripAt::goes_on(self.strip_call(slab), object);
        self.strips(slab, at)
    }

    fn told_strip(&mut self, slab: u64, at: StripAt, found: u64) -> Turn
        ensures { (self.new, result) ≡ strip_learn_of self.old slab at found }
    {
        match at.told(self.strip_call(slab), found) {
            StripNext::Goes(next) => self.strips(slab, Some(next)),
            StripNext::Freed { object, unit } => {
                self.heap.slabs.free_of(slab, unit);
                self.strips_from(slab, object.saturating_add(1))
            }
            StripNext::Stripped => self.strips(slab, None),
        }
    }

    /// The mailbox of a slab's class is taken before its slabs are given up.
    fn begins_class(&mut self, first: Option<HeapSlab>) -> Turn
        ensures { (self.new, result) ≡ class_begun self.old first }
    {
        let Some(kept) = first else {
            return self.answers(Answer::Exited);
        };
        self.is_resetting(ResetStage::Heap {
            class: Some(kept.class),
        });
        self.fetch.class = kept.class;
        self.goes(At::Mailbox(BoxAt::Take))
    }

    fn gives_slab(&mut self, first: Option<HeapSlab>) -> Turn
        ensures { (self.new, result) ≡ slab_given self.old first }
    {
        match first {
            Some(kept) => self.strips_from(kept.slab, 0),
            None => {
                let first = self.heap.slabs.first_from(Wanted::Any, 0);
                self.begins_class(first)
            }
        }
    }

    /// The first slab of the class whose mailbox was taken.
    fn first_fetched(&self, class: Option<u8>) -> Option<HeapSlab>
        ensures { result ≡ first_fetched self.now class }
    {
        match class {
            Some(class) => self.heap.slabs.first_of_class(Wanted::Any, class),
            None => None,
        }
    }

    /// The heap gives up one more slab, the cached ones first, or keeps none.
    pub fn gives_heap(&mut self, class: Option<u8>) -> Turn
        ensures { (self.new, result) ≡ heap_on self.old class }
    {
        match self.heap.cached.newest() {
            Some(slab) => self.goes(At::Small(SmallAt::Newest { slab })),
            None => {
                let first = self.first_fetched(class);
                self.gives_slab(first)
            }
        }
    }

    /// A region is looked for.
    fn seeks(&mut self, seek: Seek) -> Turn
        ensures { (self.new, result) ≡ seeking self.old seek }
    {
        self.goes_reset(ResetAt::Seek(SeekAt::begins(seek)))
    }

    /// The slabs of the next class that nobody keeps; after the last one, large objects.
    fn next_class(&mut self) -> Turn
        ensures { (self.new, result) ≡ next_class self.old }
    {
        if self.fetch.class < LAST_CLASS {
            self.fetch.class += 1;
            return self.goes(At::Adopt(AdoptAt::Take));
        }
        self.seeks(Seek::From(0))
    }

    fn gives_orphans(&mut self, rest: Option<u64>) -> Turn
        ensures { (self.new, result) ≡ orphans_on self.old rest }
    {
        match rest {
            Some(slab) => self.goes(At::Adopt(AdoptAt::Header { slab })),
            None => self.next_class(),
        }
    }

    /// A slab that nobody kept was adopted, and is given up before the one behind it.
    pub fn has_adopted_orphan(&mut self, slab: u64, rest: Option<u64>) -> Turn
        ensures { (self.new, result) ≡ orphan_adopted self.old slab rest }
    {
        self.is_resetting(ResetStage::Orphans { rest });
        self.strips_from(slab, 0)
    }

    fn evict_call(&self, region: RegionWord) -> EvictCall
        ensures { result ≡ evict_call self.now region }
    {
        EvictCall {
            seat: self.seat,
            region: region_block(region),
        }
    }

    /// A large object comes into the seat's hand; after a region's last one the next region is looked for.
    fn evicts(&mut self, region: RegionWord, next: EvictNext) -> Turn
        ensures { (self.new, result) ≡ evicting self.old region next }
    {
        match next {
            EvictNext::Goes(at) => self.goes_reset(ResetAt::Evict { region, at }),
            EvictNext::Ended { block, granule } => {
                self.bins(ResetStage::Large { region, granule }, block)
            }
            EvictNext::Passed => self.seeks(Seek::From(region.number.saturating_add(1))),
        }
    }

    fn evicts_from(&mut self, region: RegionWord, granule: u64) -> Turn
        ensures { (self.new, result) ≡ evicting_from self.old region granule }
    {
        let next = self.evict_call(region).goes_on(granule);
        self.evicts(region, next)
    }

    fn told_evict(&mut self, region: RegionWord, at: EvictAt, found: u64) -> Turn
        ensures { (self.new, result) ≡ evict_learn_of self.old region at found }
    {
        let next = at.told(self.evict_call(region), found);
        self.evicts(region, next)
    }

    /// A cache bin comes back to its first state.
    fn clears(&mut self, granules: u64) -> Turn
        ensures { (self.new, result) ≡ clearing self.old granules }
    {
        self.goes_reset(ResetAt::Clear {
            granules,
            at: ClearAt::Peek(Number::Items),
        })
    }

    /// The next cache bin; behind the last one the queue.
    fn has_cleared(&mut self, granules: u64) -> Turn
        ensures { (self.new, result) ≡ bin_cleared self.old granules }
    {
        if granules < LAST_CACHE_BIN {
            return self.clears(granules + 1);
        }
        self.goes_reset(ResetAt::Unqueue(UnqueueAt::Take))
    }

    /// The blocks that were taken out of a cache bin, the oldest first.
    fn uncaches(&mut self, granules: u64) -> Turn
        ensures { (self.new, result) ≡ uncaching self.old granules }
    {
        match self.released.newest() {
            Some(first) => {
                self.released.pop();
                self.bins(ResetStage::Cache { granules }, Block { first, granules })
            }
            None => self.has_cleared(granules),
        }
    }

    fn clear_call(&self, granules: u64) -> ClearCall
        ensures { result ≡ clear_call self.now granules }
    {
        ClearCall {
            seat: self.seat,
            granules,
        }
    }

    fn told_clear(&mut self, granules: u64, at: ClearAt, found: u64) -> Turn
        ensures { (self.new, result) ≡ clear_learn_of self.old granules at found }
    {
        match at.told(found) {
            ClearNext::Goes(next) => self.goes_reset(ResetAt::Clear { granules, at: next }),
            ClearNext::Taken { block, at: next } => {
                self.released.push(block);
                self.goes_reset(ResetAt::Clear { granules, at: next })
            }
            ClearNext::Waits => {
                let bin = (granules % 65536) as u16;
                let at = At::Reset(ResetAt::Clear { granules, at });
                self.waits(at, Awaited::CacheLock(bin))
            }
            ClearNext::Passed => self.has_cleared(granules),
            ClearNext::Cleared => self.uncaches(granules),
        }
    }

    /// The queue's blocks; behind the last one the regions, of which the highest number comes first.
    fn unqueues(&mut self, next: UnqueueNext) -> Turn
        ensures { (self.new, result) ≡ unqueuing self.old next }
    {
        match next {
            UnqueueNext::Goes(at) => self.goes_reset(ResetAt::Unqueue(at)),
            UnqueueNext::Out { block, rest } => self.bins(ResetStage::Queue { rest }, block),
            UnqueueNext::Emptied => self.seeks(Seek::Under(REGION_NUMBERS)),
        }
    }

    fn unite_call(&self, region: RegionWord) -> UniteCall
        ensures { result ≡ unite_call self.now region }
    {
        UniteCall {
            seat: self.seat,
            region: region_block(region),
        }
    }

    /// What was united of a region is put into its bin as one block.
    fn unites(&mut self, region: RegionWord, at: UniteAt, next: UniteNext) -> Turn
        ensures { (self.new, result) ≡ uniting self.old region at next }
    {
        match next {
            UniteNext::Goes(next) => self.goes_reset(ResetAt::Unite { region, at: next }),
            UniteNext::Waits(bin) => {
                self.waits_for_bin(At::Reset(ResetAt::Unite { region, at }), bin)
            }
            UniteNext::United(block) => {
                let below = region.number;
                if block.granules == 0 {
                    return self.seeks(Seek::Under(below));
                }
                self.bins(ResetStage::Regions { below }, block)
            }
        }
    }

    fn unites_from(&mut self, region: RegionWord) -> Turn
        ensures { (self.new, result) ≡ uniting_from self.old region }
    {
        let first = region.first;
        let next = self.unite_call(region).goes_on(first);
        self.unites(region, UniteAt::Size { first }, next)
    }

    fn told_unite(&mut self, region: RegionWord, at: UniteAt, found: u64) -> Turn
        ensures { (self.new, result) ≡ unite_learn_of self.old region at found }
    {
        let next = at.told(self.unite_call(region), found);
        self.unites(region, at, next)
    }

    /// Large objects are looked for from the lowest number on, and regions are united from the highest on.
    fn has_found(&mut self, region: RegionWord, seek: Seek) -> Turn
        ensures { (self.new, result) ≡ region_found self.old region seek }
    {
        match seek {
            Seek::From(_) => self.evicts_from(region, region.first),
            Seek::Under(_) => self.unites_from(region),
        }
    }

    fn has_passed_regions(&mut self, seek: Seek) -> Turn
        ensures { (self.new, result) ≡ regions_passed self.old seek }
    {
        match seek {
            Seek::From(_) => self.clears(1),
            Seek::Under(_) => self.answers(Answer::Exited),
        }
    }

    fn has_sought(&mut self, seek: Seek, next: SeekNext) -> Turn
        ensures { (self.new, result) ≡ sought_as self.old seek next }
    {
        match next {
            SeekNext::Goes(at) => self.goes_reset(ResetAt::Seek(at)),
            SeekNext::Found(region) => self.has_found(region, seek),
            SeekNext::Nothing => self.has_passed_regions(seek),
        }
    }

    /// What comes next.
    #[tactic(auto, unfolding(crate::specs::Resetting::reset_on))]
    pub fn resets_on(&mut self, stage: ResetStage) -> Turn
        ensures { (self.new, result) ≡ reset_on self.old stage }
    {
        match stage {
            ResetStage::Heap { class } => self.gives_heap(class),
            ResetStage::Orphans { rest } => self.gives_orphans(rest),
            ResetStage::Large { region, granule } => self.evicts_from(region, granule),
            ResetStage::Cache { granules } => self.uncaches(granules),
            ResetStage::Queue { rest } => self.unqueues(UnqueueAt::goes_on(rest)),
            ResetStage::Regions { below } => self.seeks(Seek::Under(below)),
        }
    }

    /// The block in hand is in its bin.
    fn has_binned(&mut self) -> Turn
        ensures { (self.new, result) ≡ binned_at self.old self.old.call.stage }
    {
        match self.call.stage {
            Stage::Resetting(stage) => self.resets_on(stage),
            _ => self.answers(Answer::Exited),
        }
    }

    fn bins_on(&mut self, at: BinAt, next: BinNext) -> Turn
        ensures { (self.new, result) ≡ binned_as self.old at next }
    {
        match next {
            BinNext::Goes(next) => self.goes_reset(ResetAt::Bin(next)),
            BinNext::Waits => {
                let bin = bin_of(self.call.block.granules);
                self.waits_for_bin(At::Reset(ResetAt::Bin(at)), bin)
            }
            BinNext::Done => self.has_binned(),
        }
    }

    /// The next step of a reset.
    pub fn next_reset(&self, at: ResetAt) -> Action
        ensures { result ≡ reset_course self.now at }
    {
        match at {
            ResetAt::Strip { slab, at } => at.next(self.strip_call(slab)),
            ResetAt::Seek(at) => at.next(),
            ResetAt::Evict { region, at } => at.next(self.evict_call(region)),
            ResetAt::Clear { granules, at } => at.next(self.clear_call(granules)),
            ResetAt::Unqueue(at) => at.next(),
            ResetAt::Unite { region, at } => at.next(self.unite_call(region)),
            ResetAt::Bin(at) => at.next(self.binning_call()),
        }
    }

    pub fn told_reset(&mut self, at: ResetAt, found: u64) -> Turn
        ensures { (self.new, result) ≡ reset_learn_of self.old at found }
    {
        match at {
            ResetAt::Strip { slab, at } => self.told_strip(slab, at, found),
            ResetAt::Seek(at) => self.has_sought(at.seek, at.told(found)),
            ResetAt::Evict { region, at } => self.told_evict(region, at, found),
            ResetAt::Clear { granules, at } => self.told_clear(granules, at, found),
            ResetAt::Unqueue(at) => self.unqueues(at.told(found)),
            ResetAt::Unite { region, at } => self.told_unite(region, at, found),
            ResetAt::Bin(at) => {
                let next = at.told(self.binning_call(), found);
                self.bins_on(at, next)
            }
        }
    }
}
