//! Two seats at the office, over a pool's words.

use crate::*;
use pool_types::{Region, RegionRec};
use pool_words::{Action, Key, OfficeJob, Seen, Word, performed, value};
use std::alloc::AllocError;
use word_codes::Guard;

const KEY: Key = Key {
    pool: 0,
    seats: 2,
    span: 16,
    region: 8192,
    granularity: 8192,
    gets: true,
    frees: true,
    fixed: false,
    keep: false,
};

const OBTAIN: OfficeCall = OfficeCall {
    seat: 0,
    job: OfficeJob::Obtain { granules: 2 },
};

const GIVE: OfficeCall = OfficeCall {
    seat: 1,
    job: OfficeJob::Give { first: 3 },
};

/// The region that comes: number 65, so that it has slot 1.
fn region() -> RegionRec {
    RegionRec {
        number: 65,
        first: 3,
        granules: 4,
        waste: 100,
        region: Region {
            base: 8092,
            bytes: 40000,
        },
    }
}

/// What a step finds; the office itself gives the region, or takes it.
fn seen(words: &mut [u64], action: Action) -> Seen {
    match action {
        Action::TakeOffice(OfficeJob::Obtain { .. }) => Seen::Obtained(region()),
        Action::TakeOffice(OfficeJob::Give { .. }) => Seen::Given,
        _ => Seen::Word(performed(words, &KEY, action)),
    }
}

/// The steps from a position on, at most so many: the position behind them, and how many there were.
fn stepped(words: &mut [u64], call: OfficeCall, from: OfficeAt, most: u32) -> (OfficeAt, u32) {
    let mut at = from;
    for step in 0..most {
        let found = seen(words, at.next(call));
        match at.told(call, found) {
            OfficeNext::Goes(next) => at = next,
            OfficeNext::Waits => return (at, step),
            OfficeNext::Left(_) => return (at, step + 1),
        }
    }
    (at, most)
}

/// A region comes with its base, its word, its walls and a block in use; a seat that wants the office meanwhile waits at
/// its lock, and then gives the region back, whose slot it found.
#[test]
fn a_region_comes_and_goes(rt: HostRuntime) -> Result<(), AllocError> {
    let mut words = vec![in rt.alloc(); 0_u64; KEY.words()]?;
    let (taking, steps) = stepped(words.as_mut_slice(), OBTAIN, OfficeAt::Lock, 65);
    assert_eq!(rt; steps, 65);
    assert!(rt; matches!(taking, OfficeAt::Take { .. }));
    let (waiting, steps) = stepped(words.as_mut_slice(), GIVE, OfficeAt::Lock, 65);
    assert_eq!(rt; steps, 0);
    assert!(rt; matches!(waiting, OfficeAt::Lock));
    let (_, steps) = stepped(words.as_mut_slice(), OBTAIN, taking, 20);
    assert_eq!(rt; steps, 9);
    let wall = Guard::Wall.word();
    let used = Guard::Used.word();
    let table = [
        (Word::Base(1), 8092),
        (Word::Size(7), wall),
        (Word::Left(3), wall),
        (Word::Size(3), used),
        (Word::Left(7), used),
        (Word::OfficeLock, 0),
    ];
    for (word, expected) in table {
        assert_eq!(rt; value(words.as_slice(), &KEY, word), expected);
    }
    assert!(rt; value(words.as_slice(), &KEY, Word::Region(1)) != 0);
    let (_, steps) = stepped(words.as_mut_slice(), GIVE, waiting, 100);
    assert_eq!(rt; steps, 69);
    assert_eq!(rt; value(words.as_slice(), &KEY, Word::Region(1)), 0);
    Ok(())
}

/// Where the office is out of its slot, the seat that has the lock waits.
#[test]
fn an_office_that_is_out_is_waited_for(rt: HostRuntime) {
    let taking = OfficeAt::Take { given: None };
    assert!(rt; matches!(taking.told(OBTAIN, Seen::OfficeOut), OfficeNext::Waits));
}
