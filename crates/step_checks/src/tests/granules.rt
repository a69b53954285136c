//! Where each granule of a pool is, by its words and by what its seats keep. It is counted by itself, and not as the
//! totals are: by blocks, and with what each seat has in hand.

use super::bench::Pool;
use super::hands::add_hand;
use backend_bins::Block;
use backend_bins::blocks::LAST_BIN;
use pool_types::geometry::{GRANULE_BYTES, SLAB_GRANULES, UNIT_BYTES};
use pool_types::limits::MOST_REGIONS;
use pool_words::{Key, Word, value};
use std::alloc::{AllocError, Global};
use step_local::Local;
use word_codes::{Guard, Kind, Mark, QueueLink, RegionWord, link_of, slab_granule};
use word_totals::Amid;

const GRANULE_UNITS: u64 = GRANULE_BYTES / UNIT_BYTES;

/// The last bin of the cache.
const LAST_CACHE_BIN: u64 = 1023;

/// How many places each granule has, of those that were added so far. Behind the last granule stands how often a
/// granule was added that the pool has not.
#[derive(Drop)]
pub struct Places<'a> {
    key: Key,
    words: &'a [u64],
    seen: Vec<u8>,
    slabs_cached: usize,
}

/// What is wrong with the places of a pool's granules.
#[derive(Clone, Copy, Debug, PartialEq, Eq)]
pub enum Wrong {
    /// This granule of a region has so many places.
    Places(u64, u8),
    /// So many places are outside of all regions.
    Outside(u8),
    /// The heaps have another number of cached slabs than words name.
    SlabCaches,
    /// More than one heap has a record of this slab.
    Keepers(u64),
}

impl<'a> Places<'a> {
    fn none(alloc: Global, key: Key, words: &'a [u64]) -> Result<Places<'a>, AllocError> {
        let granules = key.span as usize + 1;
        let mut seen = Vec::with_capacity(alloc, granules)?;
        for _ in 0..granules {
            seen.push(0)?;
        }
        Ok(Places {
            key,
            words,
            seen,
            slabs_cached: 0,
        })
    }

    fn load(&self, word: Word) -> u64 {
        value(self.words, &self.key, word)
    }

    fn kind(&self, granule: u64) -> Kind {
        Kind::of_word(self.load(Word::Kind(granule)))
    }

    fn region(&self, slot: u64) -> RegionWord {
        RegionWord::of_word(self.load(Word::Region(slot)))
    }

    fn add_granule(&mut self, granule: u64) {
        let outside = self.seen.len().saturating_sub(1);
        let index = (granule as usize).min(outside);
        if let Some(count) = self.seen.get_mut(index) {
            *count = count.saturating_add(1);
        }
    }

    /// A place that this block has.
    pub fn add(&mut self, block: Block) {
        for granule in block.first..block.end() {
            self.add_granule(granule);
        }
    }

    /// The list of a bin still has this block, which is in hand.
    fn take(&mut self, block: Block) {
        for granule in block.first..block.end() {
            if let Some(count) = self.seen.get_mut(granule as usize) {
                *count = count.saturating_sub(1);
            }
        }
    }

    /// The blocks that are linked as in the queue, from this one on.
    pub fn add_queued(&mut self, first: Option<u64>) {
        let mut next = first;
        for _ in 0..self.key.span {
            let Some(first) = next else {
                return;
            };
            let link = QueueLink::of_word(self.load(Word::QueueLink(first)));
            self.add(Block {
                first,
                granules: link.granules,
            });
            next = link.next;
        }
    }

    /// The granules of the region that begins here.
    pub fn add_region(&mut self, first: u64) {
        for slot in 0..MOST_REGIONS as u64 {
            let region = self.region(slot);
            if region.live && region.first == first {
                self.add(Block {
                    first,
                    granules: region.granules,
                });
            }
        }
    }

    /// How many granules a block of a bin has. In the last bin the guard behind its end is not known, so the guard at
    /// its begin says it.
    fn free_length(&self, bin: u64, first: u64) -> u64 {
        if bin < LAST_BIN {
            return bin + 1;
        }
        match Guard::of_word(self.load(Word::Size(first))) {
            Guard::Free(granules) => granules,
            _ => 0,
        }
    }

    fn add_bin(&mut self, bin: u64) {
        let mut next = link_of(self.load(Word::BinHead(bin)));
        for _ in 0..self.key.span {
            let Some(first) = next else {
                return;
            };
            self.add(Block {
                first,
                granules: self.free_length(bin, first),
            });
            next = link_of(self.load(Word::Forward(first)));
        }
    }

    fn add_cache_bin(&mut self, granules: u64) {
        let mut next = link_of(self.load(Word::CacheHead(granules)));
        for _ in 0..self.key.span {
            let Some(first) = next else {
                return;
            };
            self.add(Block { first, granules });
            next = link_of(self.load(Word::CacheLink(first)));
        }
    }

    /// The blocks of all lists that words link.
    fn add_lists(&mut self) {
        for bin in 0..LAST_BIN + 1 {
            self.add_bin(bin);
        }
        for granules in 1..LAST_CACHE_BIN + 1 {
            self.add_cache_bin(granules);
        }
        self.add_queued(link_of(self.load(Word::Queue)));
    }

    /// Whether an object that is held begins in this granule.
    fn has_grant(&self, granule: u64) -> bool {
        let first = granule.saturating_mul(GRANULE_UNITS);
        for unit in first..first.saturating_add(GRANULE_UNITS) {
            if let Mark::Granted(_) = Mark::of_word(self.load(Word::Mark(unit))) {
                return true;
            }
        }
        false
    }

    /// The block of the large object that begins in this granule.
    fn add_object(&mut self, granule: u64, block: Block) {
        let slab = self.kind(slab_granule(granule));
        if !matches!(slab, Kind::Slab(_)) && self.has_grant(granule) {
            self.add(block);
        }
    }

    /// What begins at a granule.
    fn add_begun(&mut self, granule: u64) {
        let slab = Block {
            first: granule,
            granules: SLAB_GRANULES,
        };
        match self.kind(granule) {
            Kind::Nothing => {}
            Kind::Slab(_) => self.add(slab),
            Kind::CachedSlab => {
                self.slabs_cached = self.slabs_cached.saturating_add(1);
                self.add(slab);
            }
            Kind::Large { first, granules } => self.add_object(granule, Block { first, granules }),
        }
    }

    /// What begins in the regions.
    fn add_kinds(&mut self) {
        for slot in 0..MOST_REGIONS as u64 {
            let region = self.region(slot);
            if region.live {
                for granule in region.first..region.first.saturating_add(region.granules) {
                    self.add_begun(granule);
                }
            }
        }
    }

    /// What seats are in the middle of.
    fn add_seats(&mut self, locals: &[Local]) {
        for local in locals {
            match Amid::of(local) {
                Amid::Offers(block) => self.add(block),
                Amid::Unlinks(block) => self.take(block),
                _ => {}
            }
            add_hand(self, local);
        }
    }

    /// Takes one place from each granule of a region, and tells the first that has not one.
    fn judge_region(&mut self, region: RegionWord) -> Result<(), Wrong> {
        for granule in region.first..region.first.saturating_add(region.granules) {
            let Some(count) = self.seen.get_mut(granule as usize) else {
                return Err(Wrong::Places(granule, 0));
            };
            if *count != 1 {
                return Err(Wrong::Places(granule, *count));
            }
            *count = 0;
        }
        Ok(())
    }

    fn judge_regions(&mut self) -> Result<(), Wrong> {
        for slot in 0..MOST_REGIONS as u64 {
            let region = self.region(slot);
            if region.live {
                self.judge_region(region)?;
            }
        }
        for count in self.seen.as_slice() {
            if *count != 0 {
                return Err(Wrong::Outside(*count));
            }
        }
        Ok(())
    }
}

/// How many heaps have a record of a slab.
fn keepers_of(locals: &[Local], slab: u64) -> u32 {
    let mut keepers: u32 = 0;
    for local in locals {
        if local.heap.slabs.find(slab).is_some() {
            keepers = keepers.saturating_add(1);
        }
    }
    keepers
}

/// Whether no slab has two keepers, and each cached one has a heap.
fn judge_slabs(slabs_cached: usize, span: u32, locals: &[Local]) -> Result<(), Wrong> {
    let mut cached: usize = 0;
    for local in locals {
        cached = cached.saturating_add(local.heap.cached.len());
    }
    if cached != slabs_cached {
        return Err(Wrong::SlabCaches);
    }
    for half in 0..u64::from(span) / SLAB_GRANULES {
        let slab = half * SLAB_GRANULES;
        if keepers_of(locals, slab) > 1 {
            return Err(Wrong::Keepers(slab));
        }
    }
    Ok(())
}

/// Whether each granule of each region has one place, and no other granule has one. The outer error is a want of
/// memory.
pub fn judge(pool: &Pool) -> Result<Result<(), Wrong>, AllocError> {
    let key = *pool.machine.key();
    let locals = pool.machine.locals();
    let mut places = Places::none(pool.alloc, key, pool.machine.words())?;
    places.add_kinds();
    places.add_lists();
    places.add_seats(locals);
    let slabs_cached = places.slabs_cached;
    Ok(match places.judge_regions() {
        Ok(()) => judge_slabs(slabs_cached, key.span, locals),
        Err(wrong) => Err(wrong),
    })
}
