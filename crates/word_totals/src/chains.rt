//! Lists that words link. A walk follows so many links at most, so it ends whatever the words say.

ghost use Rattle.std.specs.Prelude.{◌≡◌};
ghost use Rattle.step_local.specs.Slabs.{below_in};
ghost use Rattle.word_totals.specs.Chains.{linked_objects, cached_next, linked_cached, queued_next};
ghost use Rattle.word_totals.specs.Chains.{queued_length, linked_queued};

use crate::reading::AtRest;
use pool_words::Word;
use word_codes::{Mark, QueueLink, link_of};

/// Where the mark of an object leads.
fn below_in(mark: Mark) -> Option<u64>
    ensures { result ≡ below_in mark }
{
    match mark {
        Mark::Link(unit) => Some(unit),
        _ => None,
    }
}

/// How many objects are linked, from this one on.
#[tactic(auto, unfolding(crate::specs::Chains::linked_objects))]
pub fn linked_objects<P: AtRest>(pool: &mut P, most: u64, first: Option<u64>) -> u64
    ensures exact { result ≡ linked_objects (P.still pool.old) most first 0 }
    ensures same { P.still pool.new ≡ P.still pool.old }
{
    let mut count: u64 = 0;
    let mut next = first;
    let mut left = most;
    while left > 0 {
        let Some(unit) = next else {
            return count;
        };
        next = below_in(Mark::of_word(pool.load(Word::Mark(unit))));
        count = count.saturating_add(1);
        left -= 1;
    }
    count
}

/// What stands behind a block in its cache bin.
#[tactic(auto, unfolding(crate::specs::Chains::cached_next))]
pub fn cached_next<P: AtRest>(pool: &mut P, block: u64) -> Option<u64>
    ensures exact { result ≡ cached_next (P.still pool.old) block }
    ensures same { P.still pool.new ≡ P.still pool.old }
{
    link_of(pool.load(Word::CacheLink(block)))
}

/// How many blocks of a cache bin are linked, from this one on.
#[tactic(auto, unfolding(crate::specs::Chains::linked_cached))]
pub fn linked_cached<P: AtRest>(pool: &mut P, most: u64, first: Option<u64>) -> u64
    ensures exact { result ≡ linked_cached (P.still pool.old) most first 0 }
    ensures same { P.still pool.new ≡ P.still pool.old }
{
    let mut count: u64 = 0;
    let mut next = first;
    let mut left = most;
    while left > 0 {
        let Some(block) = next else {
            return count;
        };
        next = cached_next(pool, block);
        count = count.saturating_add(1);
        left -= 1;
    }
    count
}

/// What stands behind a block in the queue.
#[tactic(auto, unfolding(crate::specs::Chains::queued_next))]
fn queued_next<P: AtRest>(pool: &mut P, block: u64) -> Option<u64>
    ensures exact { result ≡ queued_next (P.still pool.old) block }
    ensures same { P.still pool.new ≡ P.still pool.old }
{
    QueueLink::of_word(pool.load(Word::QueueLink(block))).next
}

/// How many granules a block in the queue has.
#[tactic(auto, unfolding(crate::specs::Chains::queued_length))]
fn queued_length<P: AtRest>(pool: &mut P, block: u64) -> u64
    ensures exact { result ≡ queued_length (P.still pool.old) block }
    ensures same { P.still pool.new ≡ P.still pool.old }
{
    QueueLink::of_word(pool.load(Word::QueueLink(block))).granules
}

/// The granules of the blocks that are linked in the queue, from this one on.
#[tactic(auto, unfolding(crate::specs::Chains::linked_queued))]
pub fn linked_queued<P: AtRest>(pool: &mut P, most: u64, first: Option<u64>) -> u64
    ensures exact { result ≡ linked_queued (P.still pool.old) most first 0 }
    ensures same { P.still pool.new ≡ P.still pool.old }
{
    let mut sum: u64 = 0;
    let mut next = first;
    let mut left = most;
    while left > 0 {
        let Some(block) = next else {
            return sum;
        };
        sum = sum.saturating_add(queued_length(pool, block));
        next = queued_next(pool, block);
        left -= 1;
    }
    sum
}
