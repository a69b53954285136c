//! Each job over a few words, as one seat makes it alone, and at a lock that another has.

use super::*;
use backend_bins::{BinAt, BinCall, BinJob, BinNext, Block};
use heap_slabs::HeapSlab;
use pool_types::Grant;
use pool_words::{Action, Key, Word, performed, value};
use std::test::Fail;
use word_codes::{Guard, Kind, Mark, QueueLink, RegionWord, link_word};

const KEY: Key = Key {
    pool: 0,
    seats: 2,
    span: 16,
    region: 0,
    granularity: 0,
    gets: true,
    frees: true,
    fixed: false,
    keep: false,
};

const GRANT: Grant = Grant { seat: 1, number: 7 };

fn block(first: u64, granules: u64) -> Block {
    Block { first, granules }
}

fn set(words: &mut [u64], word: Word, value: u64) {
    let _ = performed(words, &KEY, Action::Store(word, value));
}

/// Puts a block into its bin.
fn bin(words: &mut [u64], block: Block) {
    let call = BinCall {
        seat: 1,
        block,
        job: BinJob::Insert,
    };
    let mut at = BinAt::Lock;
    for _turn in 0..20 {
        let found = performed(words, &KEY, at.next(call));
        match at.told(call, found) {
            BinNext::Goes(next) => at = next,
            _ => return,
        }
    }
}

/// Of the two objects of a slab the first is private, and the second is held.
#[test]
fn what_is_held_becomes_private(rt: HostRuntime) -> Result<(), Fail> {
    let mut words = vec![in rt.alloc(); 0; KEY.words()]?;
    let words = words.as_mut_slice();
    set(words, Word::Mark(1032), Mark::End.word());
    set(words, Word::Mark(16), Mark::Granted(GRANT).word());
    let kept = HeapSlab {
        slab: 0,
        class: 25,
        handed: 2,
        count: 1,
        head: Some(1032),
    };
    let mut at = StripAt::Mark { object: 0 };
    for _turn in 0..2 {
        let found = performed(words, &KEY, at.next(kept));
        let StripNext::Goes(next) = at.told(kept, found) else {
            return Err(Fail::from("a strip that ends early"));
        };
        at = next;
    }
    let found = performed(words, &KEY, at.next(kept));
    assert!(rt;
        matches!(
            at.told(kept, found),
            StripNext::Freed {
                object: 1,
                unit: 16
            }
        )
    );
    assert_eq!(rt; value(words, &KEY, Word::Mark(16)), Mark::Link(1032).word());
    Ok(())
}

/// The number of the region that a search finds.
fn sought(words: &mut [u64], seek: Seek) -> Option<u64> {
    let mut at = SeekAt::begins(seek);
    for _turn in 0..64 {
        let found = performed(words, &KEY, at.next());
        match at.told(found) {
            SeekNext::Goes(next) => at = next,
            SeekNext::Found(region) => return Some(region.number),
            SeekNext::Nothing => return None,
        }
    }
    None
}

#[test]
fn regions_are_found_by_number(rt: HostRuntime) -> Result<(), Fail> {
    let mut words = vec![in rt.alloc(); 0; KEY.words()]?;
    let words = words.as_mut_slice();
    for number in [64_u64, 2, 5] {
        let region = RegionWord {
            live: true,
            number,
            first: 0,
            granules: 4,
            waste: 0,
        };
        set(words, Word::Region(number % 64), region.word());
    }
    assert_eq!(rt; sought(words, Seek::From(0)), Some(2));
    assert_eq!(rt; sought(words, Seek::From(3)), Some(5));
    assert_eq!(rt; sought(words, Seek::From(65)), None);
    assert_eq!(rt; sought(words, Seek::Under(100)), Some(64));
    assert_eq!(rt; sought(words, Seek::Under(64)), Some(5));
    assert_eq!(rt; sought(words, Seek::Under(2)), None);
    Ok(())
}

/// A large object was at granule 2 and is no more; one begins in the second line of granule 3.
#[test]
fn a_large_object_is_taken_with_its_block(rt: HostRuntime) -> Result<(), Fail> {
    let mut words = vec![in rt.alloc(); 0; KEY.words()]?;
    let words = words.as_mut_slice();
    let kind = |first: u64| Kind::Large { first, granules: 2 }.word();
    set(words, Word::Kind(2), kind(2));
    set(words, Word::Kind(3), kind(3));
    set(words, Word::Mark(3080), Mark::Granted(GRANT).word());
    let call = EvictCall {
        seat: 0,
        region: block(1, 5),
    };
    let mut at = EvictAt::Kind { granule: 1 };
    let mut taken = None;
    for _turn in 0..140 {
        let found = performed(words, &KEY, at.next(call));
        match at.told(call, found) {
            EvictNext::Goes(next) => at = next,
            EvictNext::Ended { block, granule } => taken = Some((
                block.first,
                block.granules,
                granule,
            )),
            EvictNext::Passed => break,
        }
    }
    assert_eq!(rt; taken, Some((3, 2, 4)));
    assert_eq!(rt; value(words, &KEY, Word::Mark(3080)), Mark::Hand(0).word());
    assert!(rt; matches!(call.goes_on(6), EvictNext::Passed));
    Ok(())
}

/// Clears a cache bin until the job ends or waits: with its end, the blocks that were taken, as digits.
fn cleared(words: &mut [u64], call: ClearCall) -> (ClearNext, u64) {
    let mut at = ClearAt::Peek(Number::Items);
    let mut taken = 0_u64;
    for _turn in 0..20 {
        let found = performed(words, &KEY, at.next(call));
        match at.told(found) {
            ClearNext::Goes(next) => at = next,
            ClearNext::Taken { block, at: next } => {
                taken = taken.saturating_mul(10).saturating_add(block);
                at = next;
            }
            end => return (end, taken),
        }
    }
    (ClearNext::Goes(at), taken)
}

/// A cache bin with the blocks 4 and 6 that was last asked at tick 9.
#[test]
fn a_cache_bin_is_as_at_first(rt: HostRuntime) -> Result<(), Fail> {
    let mut words = vec![in rt.alloc(); 0; KEY.words()]?;
    let words = words.as_mut_slice();
    let call = ClearCall {
        seat: 0,
        granules: 2,
    };
    assert!(rt; matches!(cleared(words, call), (ClearNext::Passed, 0)));
    set(words, Word::CacheGet(2), 9);
    set(words, Word::CacheItems(2), 2);
    set(words, Word::CacheHead(2), link_word(Some(4)));
    set(words, Word::CacheLink(4), link_word(Some(6)));
    set(words, Word::CacheLock(2), 2);
    assert!(rt; matches!(cleared(words, call), (ClearNext::Waits, 0)));
    set(words, Word::CacheLock(2), 0);
    assert!(rt; matches!(cleared(words, call), (ClearNext::Cleared, 46)));
    assert_eq!(rt; value(words, &KEY, Word::CacheHead(2)), 0);
    assert!(rt; matches!(cleared(words, call), (ClearNext::Passed, 0)));
    set(words, Word::CacheUsed(2), 1);
    assert!(rt; matches!(cleared(words, call), (ClearNext::Cleared, 0)));
    assert!(rt; matches!(cleared(words, call), (ClearNext::Passed, 0)));
    Ok(())
}

#[test]
fn the_queue_gives_its_blocks(rt: HostRuntime) -> Result<(), Fail> {
    let mut words = vec![in rt.alloc(); 0; KEY.words()]?;
    let words = words.as_mut_slice();
    let link = QueueLink {
        next: None,
        granules: 3,
    };
    set(words, Word::Queue, link_word(Some(5)));
    set(words, Word::QueueLink(5), link.word());
    let found = performed(words, &KEY, UnqueueAt::Take.next());
    assert_eq!(rt; value(words, &KEY, Word::Queue), 0);
    let UnqueueNext::Goes(at) = UnqueueAt::Take.told(found) else {
        return Err(Fail::from("a queue that should have a block"));
    };
    let found = performed(words, &KEY, at.next());
    let UnqueueNext::Out { block, rest } = at.told(found) else {
        return Err(Fail::from("a block that should come out"));
    };
    assert_eq!(rt; (block.first, block.granules, rest), (5, 3, None));
    assert!(rt; matches!(UnqueueAt::goes_on(rest), UnqueueNext::Emptied));
    Ok(())
}

/// Unites a region, until the job ends or waits.
fn united(words: &mut [u64], call: UniteCall) -> UniteNext {
    let mut at = UniteAt::Size {
        first: call.region.first,
    };
    for _turn in 0..60 {
        let found = performed(words, &KEY, at.next(call));
        match at.told(call, found) {
            UniteNext::Goes(next) => at = next,
            end => return end,
        }
    }
    UniteNext::Goes(at)
}

/// A region of the granules 1 to 12 is three free blocks, of which two are in one bin. Another has that bin's lock at
/// first; then the block that was won there is free again.
#[test]
fn a_region_is_one_block(rt: HostRuntime) -> Result<(), Fail> {
    let mut words = vec![in rt.alloc(); 0; KEY.words()]?;
    let words = words.as_mut_slice();
    let call = UniteCall {
        seat: 0,
        region: block(1, 12),
    };
    for one in [block(1, 5), block(6, 2), block(8, 5)] {
        bin(words, one);
    }
    set(words, Word::BinLock(4), 2);
    assert!(rt; matches!(united(words, call), UniteNext::Waits(4)));
    set(words, Word::BinLock(4), 0);
    set(words, Word::Size(1), Guard::Free(5).word());
    set(words, Word::Left(6), Guard::Free(5).word());
    let UniteNext::United(one) = united(words, call) else {
        return Err(Fail::from("a region that should be one block"));
    };
    assert_eq!(rt; (one.first, one.granules), (1, 12));
    let at = |word: Word| value(words, &KEY, word);
    assert_eq!(rt; (at(Word::BinHead(1)), at(Word::BinHead(4))), (0, 0));
    assert_eq!(rt; (at(Word::Size(8)), at(Word::Left(13))), (1, 1));
    let UniteNext::United(none) = united(words, call) else {
        return Err(Fail::from("a region without a free block"));
    };
    assert_eq!(rt; none.granules, 0);
    Ok(())
}
