//! The numbers of a cache bin, and the ages of its blocks.

ghost use Rattle.std.specs.Prelude.{◌≡◌, []};
ghost use Rattle.arrayvec.specs.ArrayVec.{array_vec_len};
ghost use Rattle.word_totals.specs.Chains.{linked_ages};
ghost use Rattle.word_totals.specs.Caching.{cache_numbers, cache_items_of};

use crate::chains::cached_next;
use crate::reading::AtRest;
use arrayvec::ArrayVec;
use cache_ages::{CacheNumbers, MOST_ITEMS};
use pool_words::Word;
use word_codes::link_of;

/// The ages of the blocks of a cache bin that are linked, from this one on, as many as a bin has at most.
#[tactic(auto, unfolding(crate::specs::Chains::linked_ages))]
fn ages_from<P: AtRest>(pool: &mut P, first: Option<u64>) -> ArrayVec<u64, MOST_ITEMS>
    ensures exact { result.items ≡ linked_ages (P.still pool.old) MOST_ITEMS first [] }
    ensures same { P.still pool.new ≡ P.still pool.old }
{
    let mut ages = ArrayVec::new();
    let mut next = first;
    let mut left = MOST_ITEMS;
    while left > 0 {
        let Some(block) = next else {
            return ages;
        };
        ages.push(pool.load(Word::CacheAge(block)));
        next = cached_next(pool, block);
        left -= 1;
    }
    ages
}

/// What the words of the cache bin for blocks of so many granules say: its numbers, and the ages of the blocks in its
/// list, the newest first. Where there is no such bin they are all 0. No memory is taken.
#[tactic(auto, unfolding(crate::specs::Caching::cache_numbers))]
pub fn cache<P: AtRest>(pool: &mut P, granules: u32) -> CacheNumbers
    ensures exact { result ≡ cache_numbers (P.still pool.old) granules }
    ensures same { P.still pool.new ≡ P.still pool.old }
{
    let bin = u64::from(granules);
    let used = pool.load(Word::CacheUsed(bin));
    let mean = pool.load(Word::CacheMean(bin));
    let threshold = pool.load(Word::CacheThreshold(bin));
    let get = pool.load(Word::CacheGet(bin));
    let cleaned = pool.load(Word::CacheCleaned(bin));
    let first = link_of(pool.load(Word::CacheHead(bin)));
    CacheNumbers {
        used,
        mean,
        threshold,
        get,
        cleaned,
        ages: ages_from(pool, first),
    }
}

/// How many blocks are in the cache bin for blocks of so many granules, as its own word says. It differs from the
/// number of ages only while a seat has the bin's lock.
pub fn cache_items<P: AtRest>(pool: &mut P, granules: u32) -> u64
    ensures exact { result ≡ cache_items_of (P.still pool.old) granules }
    ensures same { P.still pool.new ≡ P.still pool.old }
{
    pool.load(Word::CacheItems(u64::from(granules)))
}
