//! Runs of the jobs over a pool's words, and what they leave of a cache bin.

use crate::*;
use cache_ages::{CacheNumbers, CacheOp, cache_step};
use pool_words::{Action, Key, Word, performed, value};
use std::alloc::{AllocError, Global};
use word_codes::link_of;

/// The granules of the blocks of the bin that is tried.
const GRANULES: u64 = 2;

const KEY: Key = Key {
    pool: 0,
    seats: 2,
    span: 140,
    region: 8192,
    granularity: 8192,
    gets: true,
    frees: true,
    fixed: false,
    keep: false,
};

fn fresh_words(alloc: Global) -> Result<Vec<u64>, AllocError> {
    vec![in alloc; 0_u64; KEY.words()]
}

fn at(seat: u8, time: u64) -> CacheCall {
    CacheCall {
        seat,
        granules: GRANULES,
        time,
    }
}

/// A whole get: the block that it took, or none where it missed or did not end.
fn get(words: &mut [u64], time: u64) -> Option<u64> {
    let mut position = GetAt::Lock;
    for _ in 0..20 {
        let found = performed(words, &KEY, position.next(at(0, time)));
        match position.told(found) {
            GetNext::Goes(next) => position = next,
            GetNext::Took { block } => return Some(block),
            GetNext::Missed | GetNext::Waits => return None,
        }
    }
    None
}

/// A whole undo.
fn undo(words: &mut [u64]) {
    let mut position = UndoAt::Lock;
    for _ in 0..5 {
        let found = performed(words, &KEY, position.next(at(0, 0)));
        match position.told(found) {
            UndoNext::Goes(next) => position = next,
            UndoNext::Waits | UndoNext::Undone => return,
        }
    }
}

/// A whole put of a block: the one that it released, if it ended and there was one.
fn put(words: &mut [u64], time: u64, block: u64) -> Option<u64> {
    let call = KeepCall {
        seat: 0,
        granules: GRANULES,
        time,
        block,
    };
    let mut position = KeepAt::Lock;
    for _ in 0..90 {
        let found = performed(words, &KEY, position.next(call));
        match position.told(found) {
            KeepNext::Goes(next) => position = next,
            KeepNext::Kept { released } => return released,
            KeepNext::Waits => return None,
        }
    }
    None
}

/// A whole sweep of the bin: the released blocks, the newest first.
fn sweep(
    words: &mut [u64],
    time: u64,
    cleanup: Cleanup,
    alloc: Global,
) -> Result<Vec<u64>, AllocError> {
    let call = SweepCall {
        seat: 0,
        granules: GRANULES,
        time,
        cleanup,
    };
    let mut released = Vec::new(alloc);
    let mut position = SweepAt::Peek;
    for _ in 0..150 {
        let found = performed(words, &KEY, position.next(call));
        match position.told(call, found) {
            SweepNext::Goes(next) => position = next,
            SweepNext::Stays { at } => {
                released.clear();
                position = at;
            }
            SweepNext::Stale { block, at } => {
                released.push(block)?;
                position = at;
            }
            _ => return Ok(released),
        }
    }
    Ok(released)
}

/// The bin's numbers, and the ages in its list.
fn numbers(words: &[u64]) -> CacheNumbers {
    let mut bin = CacheNumbers {
        used: value(words, &KEY, Word::CacheUsed(GRANULES)),
        mean: value(words, &KEY, Word::CacheMean(GRANULES)),
        threshold: value(words, &KEY, Word::CacheThreshold(GRANULES)),
        get: value(words, &KEY, Word::CacheGet(GRANULES)),
        cleaned: value(words, &KEY, Word::CacheCleaned(GRANULES)),
        ..CacheNumbers::default()
    };
    let mut head = link_of(value(words, &KEY, Word::CacheHead(GRANULES)));
    for _ in 0..64 {
        let Some(block) = head else { break };
        let _ = bin.ages.try_push(value(words, &KEY, Word::CacheAge(block)));
        head = link_of(value(words, &KEY, Word::CacheLink(block)));
    }
    bin
}

/// Makes the operation over the words.
fn operate(
    words: &mut [u64],
    op: CacheOp,
    time: u64,
    block: u64,
    alloc: Global,
) -> Result<(), AllocError> {
    match op {
        CacheOp::Get => {
            get(words, time);
        }
        CacheOp::Put => {
            put(words, time, block);
        }
        CacheOp::Undo => undo(words),
        CacheOp::Regular => {
            sweep(words, time, Cleanup::Regular, alloc)?;
        }
        CacheOp::Soft => {
            sweep(words, time, Cleanup::Soft, alloc)?;
        }
        CacheOp::Hard => {
            sweep(words, time, Cleanup::Hard, alloc)?;
        }
    }
    Ok(())
}

/// Each job leaves the numbers and the ages that a step of the bin leaves.
#[test]
fn jobs_are_steps_of_the_bin(rt: HostRuntime) -> Result<(), AllocError> {
    let mut words = fresh_words(rt.alloc())?;
    let table = [
        (CacheOp::Get, 1),
        (CacheOp::Get, 2),
        (CacheOp::Get, 3),
        (CacheOp::Get, 4),
        (CacheOp::Undo, 4),
        (CacheOp::Put, 5),
        (CacheOp::Put, 9),
        (CacheOp::Put, 10),
        (CacheOp::Get, 20),
        (CacheOp::Soft, 21),
        (CacheOp::Put, 30),
        (CacheOp::Regular, 256),
        (CacheOp::Get, 300),
        (CacheOp::Put, 301),
        (CacheOp::Hard, 302),
    ];
    for (block, (op, time)) in (0_u64..).zip(table) {
        let before = numbers(words.as_slice());
        operate(words.as_mut_slice(), op, time, block, rt.alloc())?;
        assert!(rt; before.used < 9);
        if op == CacheOp::Put || op == CacheOp::Undo {
            assert!(rt; before.used > 0);
        }
        let step = cache_step(&before, op, time);
        assert_eq!(rt; numbers(words.as_slice()), step.numbers, "at {time}");
    }
    Ok(())
}

/// The bin is full at 64 blocks: one more releases the oldest, and the numbers say when it came.
#[test]
fn a_full_bin_releases_its_oldest(rt: HostRuntime) -> Result<(), AllocError> {
    let mut words = fresh_words(rt.alloc())?;
    performed(
        words.as_mut_slice(),
        &KEY,
        Action::Store(Word::CacheUsed(GRANULES), 65),
    );
    for block in 0..64 {
        assert_eq!(rt; put(words.as_mut_slice(), 100 + block, block), None);
    }
    assert_eq!(rt; put(words.as_mut_slice(), 164, 64), Some(0));
    let full = numbers(words.as_slice());
    assert_eq!(rt; full.ages.len(), 64);
    assert_eq!(rt; full.cleaned, 100);
    assert_eq!(rt;
        value(words.as_slice(), &KEY, Word::CacheItems(GRANULES)),
        64
    );
    let all = sweep(words.as_mut_slice(), 0, Cleanup::Hard, rt.alloc())?;
    assert_eq!(rt; all.len(), 64);
    assert_eq!(rt; all.first().copied(), Some(64));
    assert_eq!(rt; all.last().copied(), Some(1));
    Ok(())
}

/// A seat that comes while another has the lock waits, and finds all that the other did once it is free.
#[test]
fn a_second_seat_waits_for_the_lock(rt: HostRuntime) -> Result<(), AllocError> {
    let mut words = fresh_words(rt.alloc())?;
    let first = performed(words.as_mut_slice(), &KEY, GetAt::Lock.next(at(0, 1)));
    assert!(rt; matches!(GetAt::Lock.told(first), GetNext::Goes(GetAt::Items)));
    let second = performed(words.as_mut_slice(), &KEY, UndoAt::Lock.next(at(1, 1)));
    assert!(rt; matches!(UndoAt::Lock.told(second), UndoNext::Waits));
    let unlock = GetAt::Unlock { block: None };
    performed(words.as_mut_slice(), &KEY, unlock.next(at(0, 1)));
    let second = performed(words.as_mut_slice(), &KEY, UndoAt::Lock.next(at(1, 1)));
    assert!(rt; matches!(UndoAt::Lock.told(second), UndoNext::Goes(UndoAt::Used)));
    Ok(())
}
