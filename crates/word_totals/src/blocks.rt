//! Free blocks in bins, blocks in the queue, and blocks in the cache.

ghost use Rattle.std.specs.Prelude.{◌≡◌};
ghost use Rattle.word_totals.specs.Blocks.{length_if, won_length, sought_length, length_by, length_in, free_next};
ghost use Rattle.word_totals.specs.Blocks.{linked_free, granules_in, granules_cached, free_granules, cached_granules};
ghost use Rattle.word_totals.specs.Blocks.{block_bytes, bin_bytes, queue_bytes, cached_bytes};

use crate::chains::{linked_cached, linked_queued};
use crate::middle::Amid;
use crate::reading::AtRest;
use backend_bins::Block;
use backend_bins::blocks::LAST_BIN;
use pool_types::geometry::{BIN_COUNT, GRANULE_BYTES};
use pool_words::Word;
use word_codes::{Guard, link_of};

/// How many counts of granules a block in the cache may have, 0 with them.
const CACHE_COUNTS: u64 = 1024;

fn length_if(block: Block, first: u64) -> Option<u64>
    ensures { result ≡ length_if block first }
{
    if block.first == first {
        Some(block.granules)
    } else {
        None
    }
}

/// How many granules the free block has that begins here, if a seat that is so far has won the guard at its begin.
fn won_length(first: u64, amid: Amid) -> Option<u64>
    ensures { result ≡ won_length first amid }
{
    match amid {
        Amid::Wins(block) => length_if(block, first),
        Amid::Unlinks(block) => length_if(block, first),
        _ => None,
    }
}

/// How many granules the free block has that begins here, by the first seat that has won the guard at its begin.
#[tactic(auto, unfolding(crate::specs::Blocks::sought_length))]
fn sought_length<P: AtRest>(pool: &P, first: u64, seats: u64) -> u64
    ensures { result ≡ sought_length (P.still pool.now) first seats 0 }
{
    let mut seat: u64 = 0;
    let mut left = seats;
    while left > 0 {
        if let Some(length) = won_length(first, pool.amid(seat)) {
            return length;
        }
        seat = seat.saturating_add(1);
        left -= 1;
    }
    0
}

fn length_by<P: AtRest>(pool: &P, first: u64, guard: Guard) -> u64
    ensures { result ≡ length_by (P.still pool.now) first guard }
{
    match guard {
        Guard::Free(granules) => granules,
        _ => sought_length(pool, first, u64::from(pool.key().seats)),
    }
}

/// How many granules a block of a bin has: in the last bin the guard at its begin says it, or who won that.
#[tactic(auto, unfolding(crate::specs::Blocks::length_in))]
fn length_in<P: AtRest>(pool: &mut P, bin: u64, first: u64) -> u64
    ensures exact { result ≡ length_in (P.still pool.old) bin first }
    ensures same { P.still pool.new ≡ P.still pool.old }
{
    if bin < LAST_BIN {
        return bin + 1;
    }
    let guard = Guard::of_word(pool.load(Word::Size(first)));
    length_by(pool, first, guard)
}

/// What stands behind a block in its bin.
#[tactic(auto, unfolding(crate::specs::Blocks::free_next))]
fn free_next<P: AtRest>(pool: &mut P, block: u64) -> Option<u64>
    ensures exact { result ≡ free_next (P.still pool.old) block }
    ensures same { P.still pool.new ≡ P.still pool.old }
{
    link_of(pool.load(Word::Forward(block)))
}

/// The granules of the blocks that are linked in a bin, from this one on.
#[tactic(auto, unfolding(crate::specs::Blocks::linked_free))]
fn linked_free<P: AtRest>(pool: &mut P, bin: u64, most: u64, first: Option<u64>) -> u64
    ensures exact { result ≡ linked_free (P.still pool.old) bin most first 0 }
    ensures same { P.still pool.new ≡ P.still pool.old }
{
    let mut sum: u64 = 0;
    let mut next = first;
    let mut left = most;
    while left > 0 {
        let Some(block) = next else {
            return sum;
        };
        sum = sum.saturating_add(length_in(pool, bin, block));
        next = free_next(pool, block);
        left -= 1;
    }
    sum
}

/// The granules of the blocks of a bin.
#[tactic(auto, unfolding(crate::specs::Blocks::granules_in))]
fn granules_in<P: AtRest>(pool: &mut P, bin: u64) -> u64
    ensures exact { result ≡ granules_in (P.still pool.old) bin }
    ensures same { P.still pool.new ≡ P.still pool.old }
{
    let most = u64::from(pool.key().span);
    let first = link_of(pool.load(Word::BinHead(bin)));
    linked_free(pool, bin, most, first)
}

/// The granules of the blocks of a cache bin.
#[tactic(auto, unfolding(crate::specs::Blocks::granules_cached))]
fn granules_cached<P: AtRest>(pool: &mut P, granules: u64) -> u64
    ensures exact { result ≡ granules_cached (P.still pool.old) granules }
    ensures same { P.still pool.new ≡ P.still pool.old }
{
    let most = u64::from(pool.key().span);
    let first = link_of(pool.load(Word::CacheHead(granules)));
    linked_cached(pool, most, first).saturating_mul(granules)
}

/// The granules of the blocks of the first so many bins.
#[tactic(auto, unfolding(crate::specs::Blocks::free_granules))]
fn free_granules<P: AtRest>(pool: &mut P, bins: u64) -> u64
    ensures exact { result ≡ free_granules (P.still pool.old) bins 0 0 }
    ensures same { P.still pool.new ≡ P.still pool.old }
{
    let mut sum: u64 = 0;
    let mut bin: u64 = 0;
    let mut left = bins;
    while left > 0 {
        sum = sum.saturating_add(granules_in(pool, bin));
        bin = bin.saturating_add(1);
        left -= 1;
    }
    sum
}

/// The granules of the blocks of the first so many cache bins.
#[tactic(auto, unfolding(crate::specs::Blocks::cached_granules))]
fn cached_granules<P: AtRest>(pool: &mut P, counts: u64) -> u64
    ensures exact { result ≡ cached_granules (P.still pool.old) counts 0 0 }
    ensures same { P.still pool.new ≡ P.still pool.old }
{
    let mut sum: u64 = 0;
    let mut granules: u64 = 0;
    let mut left = counts;
    while left > 0 {
        sum = sum.saturating_add(granules_cached(pool, granules));
        granules = granules.saturating_add(1);
        left -= 1;
    }
    sum
}

/// The bytes of so many granules.
pub fn block_bytes(granules: u64) -> u64
    ensures { result ≡ block_bytes granules }
{
    granules.saturating_mul(GRANULE_BYTES)
}

/// The bytes in the lists of all bins.
#[tactic(auto, unfolding(crate::specs::Blocks::bin_bytes))]
pub fn bin_bytes<P: AtRest>(pool: &mut P) -> u64
    ensures exact { result ≡ bin_bytes (P.still pool.old) }
    ensures same { P.still pool.new ≡ P.still pool.old }
{
    block_bytes(free_granules(pool, u64::from(BIN_COUNT)))
}

/// The bytes in the queue.
#[tactic(auto, unfolding(crate::specs::Blocks::queue_bytes))]
pub fn queue_bytes<P: AtRest>(pool: &mut P) -> u64
    ensures exact { result ≡ queue_bytes (P.still pool.old) }
    ensures same { P.still pool.new ≡ P.still pool.old }
{
    let most = u64::from(pool.key().span);
    let first = link_of(pool.load(Word::Queue));
    block_bytes(linked_queued(pool, most, first))
}

/// The bytes in the cache.
#[tactic(auto, unfolding(crate::specs::Blocks::cached_bytes))]
pub fn cached_bytes<P: AtRest>(pool: &mut P) -> u64
    ensures exact { result ≡ cached_bytes (P.still pool.old) }
    ensures same { P.still pool.new ≡ P.still pool.old }
{
    block_bytes(cached_granules(pool, CACHE_COUNTS))
}
