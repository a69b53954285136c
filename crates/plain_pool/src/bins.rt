//! The free blocks of the region, in bins by their number of granules, as in oneTBB's `src/tbbmalloc/backend.cpp`. A block
//! finds its free neighbours by where it begins and ends.
ghost use Rattle.std.specs.Prelude.{◌≡◌, ◌-◌, ◌+◌, ◌<◌, ◌≤◌, min, ◌++◌, ◌∷◌, [], List, Contains, IfOk, IfSome};
ghost use Rattle.plain_lists.specs.Lists.{Block, whole_block};
ghost use Rattle.plain_lists.specs.Backend.{first_fit, some_block, after_put, slab_block, rests};
ghost use Rattle.std.specs.Prelude.{◌≤◌, ◌*◌, ◌^◌, length, sum_by};
ghost use Rattle.plain_lists.specs.Held.{block_bytes};
ghost use Rattle.plain_pool.specs.Held.{AreBlocksApart};
ghost use Rattle.plain_pool.specs.Bins.{AreBins, IsNew, IsClear, IsCut, block_at, first_granule, without_from, without_to, granules_from, granules_to};

use index_lists::IndexLists;
use std::alloc::{AllocError, Global};

/// How many bins there are.
const BINS: usize = 512;

/// The places between the region's granules, its begin and its end among them.
const PLACES: u32 = 129;

/// The granules of a slab.
const SLAB_GRANULES: u32 = 2;

/// The blocks, in the bin of their number of granules, the newest first, and the granules of the block that begins and of
/// the block that ends at each place, or 0.
#[derive(Drop)]
pub struct Bins {
    lists: IndexLists,
    begins: Vec<u32>,
    ends: Vec<u32>,
}

/// The bin of a block of so many granules.
fn bin_of(granules: u32) -> usize
    requires { 0 < granules }
    ensures { result ≡ min granules 512 - 1 }
{
    (granules.min(512) - 1) as usize
}

/// The sum of these numbers.
fn sum_of(numbers: &[u32]) -> u64
    requires { length numbers.now ≤ 129 }
    ensures exact { result ≡ sum_by (λ n. n) numbers.now }
    ensures most { result ≤ 2 ^ 32 * 129 }
{
    let mut sum = 0;
    for number in numbers {
        sum += u64::from(*number);
    }
    sum
}

impl Bins {
    /// No blocks.
    pub fn new(alloc: Global) -> Result<Self, AllocError>
        ensures { IfOk result (λ bins. AreBins bins []) }
    {
        Ok(Bins {
            lists: IndexLists::new(alloc, BINS, PLACES)?,
            begins: vec![in alloc; 0; PLACES as usize]?,
            ends: vec![in alloc; 0; PLACES as usize]?,
        })
    }

    /// Puts a block into its bin.
    fn enter(&mut self, first: u32, granules: u32)
        requires { (blocks : List Block) × AreBins self.old blocks × IsNew blocks (block_at first granules) }
        ensures { (blocks : List Block) → AreBins self.old blocks → IsNew blocks (block_at first granules) →
            AreBins self.new (block_at first granules ∷ blocks) }
    {
        self.lists.push_front(bin_of(granules), first);
        self.begins[first as usize] = granules;
        self.ends[(first + granules) as usize] = granules;
    }

    /// Takes a block out of its bin.
    fn leave(&mut self, first: u32, granules: u32)
        requires { (blocks : List Block) × AreBins self.old blocks × Contains blocks (block_at first granules) }
        ensures { (blocks : List Block) → AreBins self.old blocks → Contains blocks (block_at first granules) →
            AreBins self.new (without_from first blocks) }
    {
        self.lists.remove(bin_of(granules), first);
        self.begins[first as usize] = 0;
        self.ends[(first + granules) as usize] = 0;
    }

    /// Puts what is left of a block into its bin, where it has a granule.
    fn enter_rest(&mut self, first: u32, granules: u32)
        requires { 0 < granules → (blocks : List Block) × AreBins self.old blocks × IsNew blocks (block_at first granules) }
        ensures { (blocks : List Block) → AreBins self.old blocks → (0 < granules → IsNew blocks (block_at first granules)) →
            AreBins self.new (some_block first granules ++ blocks) }
    {
        if granules > 0 {
            self.enter(first, granules);
        }
    }

    /// Takes the block that begins at the place out of its bin, where one does. The answer is its granules, or 0.
    fn leave_from(&mut self, place: u32) -> u32
        requires within { place < 129 }
        requires blocks { (blocks : List Block) × AreBins self.old blocks }
        ensures granules { (blocks : List Block) → AreBins self.old blocks → result ≡ granules_from place blocks }
        ensures blocks { (blocks : List Block) → AreBins self.old blocks → AreBins self.new (without_from place blocks) }
    {
        let granules = self.begins[place as usize];
        if granules > 0 {
            self.leave(place, granules);
        }
        granules
    }

    /// Takes the block that ends at the place out of its bin, where one does. The answer is its granules, or 0.
    fn leave_to(&mut self, place: u32) -> u32
        requires within { place < 129 }
        requires blocks { (blocks : List Block) × AreBins self.old blocks }
        ensures granules { (blocks : List Block) → AreBins self.old blocks → result ≡ granules_to place blocks }
        ensures blocks { (blocks : List Block) → AreBins self.old blocks → AreBins self.new (without_to place blocks) }
    {
        let granules = self.ends[place as usize];
        if granules > 0 {
            self.leave(place - granules, granules);
        }
        granules
    }

    /// The first granule of the block that a scan for a slab takes.
    fn first_fit(&self) -> Option<u32>
        requires { (blocks : List Block) × AreBins self.now blocks }
        ensures { (blocks : List Block) → AreBins self.now blocks → result ≡ first_granule (first_fit blocks) }
    {
        for bin in 1..BINS {
            if let Some(first) = self.lists.first(bin) {
                return Some(first);
            }
        }
        None
    }

    /// Cuts a slab out of the first block that fits. The answer is the index of its first granule.
    pub fn cut(&mut self) -> Option<u32>
        requires { (blocks : List Block) × AreBins self.old blocks }
        ensures { (blocks : List Block) → AreBins self.old blocks → IsCut self.new blocks (first_fit blocks) result }
    {
        let first = self.first_fit()?;
        let granules = self.leave_from(first);
        self.enter_rest(first + SLAB_GRANULES, granules - SLAB_GRANULES);
        Some(first)
    }

    /// Puts a slab, joined with its free neighbours.
    pub fn put(&mut self, index: u32)
        requires { (blocks : List Block) × AreBins self.old blocks × IsClear index blocks }
        ensures { (blocks : List Block) → AreBins self.old blocks → IsClear index blocks →
            AreBins self.new (after_put (slab_block index) blocks) }
    {
        let before = self.leave_to(index);
        let behind = self.leave_from(index + SLAB_GRANULES);
        self.enter(index - before, before + (SLAB_GRANULES + behind));
    }

    /// Puts what the first slab leaves of a region.
    pub fn fill(&mut self)
        requires { AreBins self.old [] }
        ensures { AreBins self.new (rests whole_block) }
    {
        self.enter(SLAB_GRANULES, PLACES - 1 - SLAB_GRANULES);
    }

    /// The bytes of all blocks.
    pub fn bytes(&self) -> u64
        requires { (blocks : List Block) × AreBins self.now blocks × AreBlocksApart blocks }
        ensures { (blocks : List Block) → AreBins self.now blocks → AreBlocksApart blocks → result ≡ sum_by block_bytes blocks }
    {
        8192 * sum_of(self.begins.as_slice())
    }
}
