//! Objects given back to a slab that nobody keeps, and one object that several calls ask about while it is freed.

use crate::ending::{EndAt, EndCall, EndNext};
use crate::joining::{JoinAt, JoinCall, JoinNext};
use crate::looking::{LookAt, LookCall, LookFor, LookNext};
use crate::posting::{PostAt, PostCall, PostNext};
use chain_words::PushAt;
use pool_types::{Found, Grant};
use pool_words::{Action, Key, Word, performed, value};
use std::alloc::AllocError;
use word_codes::{Kind, Mark, Public, RegionWord, private_link};

fn small_key() -> Key {
    Key {
        pool: 0,
        seats: 2,
        span: 4,
        region: 8192,
        granularity: 8192,
        gets: true,
        frees: true,
        fixed: false,
        keep: false,
    }
}

/// So many steps of giving an object back.
fn posted(words: &mut [u64], key: &Key, call: PostCall, at: PostAt, steps: u8) -> PostNext {
    let mut next = PostNext::Goes(at);
    for _ in 0..steps {
        if let PostNext::Goes(at) = next {
            let found = performed(words, key, at.next(call));
            next = at.told(found);
        }
    }
    next
}

/// So many steps of a look.
fn looked(words: &mut [u64], key: &Key, call: LookCall, at: LookAt, steps: u8) -> LookNext {
    let mut next = LookNext::Goes(at);
    for _ in 0..steps {
        if let LookNext::Goes(at) = next {
            let found = performed(words, key, at.next(call));
            next = at.told(call, found);
        }
    }
    next
}

/// Two seats push on an orphan, one in the other's way; the chain ends in `EndUnusable`, and is joined as any other.
#[test]
fn a_chain_begun_on_an_orphan_is_joined(rt: HostRuntime) -> Result<(), AllocError> {
    let key = small_key();
    let mut words = vec![in rt.alloc(); 0_u64; key.words()]?;
    performed(
        &mut words,
        &key,
        Action::Store(Word::Public(0), Public::Unusable.word()),
    );
    let slow = PostCall {
        unit: 2032,
        slab: 0,
    };
    let fast = PostCall {
        unit: 2016,
        slab: 0,
    };
    let look = PostAt::Push(PushAt::Look);
    let half = posted(&mut words, &key, slow, look, 2);
    let first = posted(&mut words, &key, fast, look, 3);
    assert!(rt; matches!(first, PostNext::Listed), "nobody mails an orphan");
    assert_eq!(rt;
        value(&words, &key, Word::Mark(2016)),
        Mark::EndUnusable.word()
    );
    let PostNext::Goes(at) = half else {
        return Err(AllocError);
    };
    let last = posted(&mut words, &key, slow, at, 3);
    assert!(rt; matches!(last, PostNext::Listed), "a lost push goes on");

    let call = JoinCall {
        slab: 0,
        head: Some(2000),
    };
    let mut next = JoinNext::Goes(JoinAt::Take);
    for _ in 0..4 {
        let JoinNext::Goes(at) = next else {
            return Err(AllocError);
        };
        next = at.told(performed(&mut words, &key, at.next(call)));
    }
    assert!(rt;
        matches!(
            next,
            JoinNext::Joined {
                first: 2032,
                count: 2
            }
        ),
        "both are joined"
    );
    assert_eq!(rt;
        value(&words, &key, Word::Mark(2016)),
        private_link(Some(2000))
    );
    assert_eq!(rt; value(&words, &key, Word::Public(0)), 0);
    Ok(())
}

/// Two frees and two questions look at one object; one free wins, and the others find no grant.
#[test]
fn one_of_two_frees_wins(rt: HostRuntime) -> Result<(), AllocError> {
    let key = small_key();
    let mut words = vec![in rt.alloc(); 0_u64; key.words()]?;
    let region = RegionWord {
        live: true,
        number: 1,
        first: 2,
        granules: 2,
        waste: 0,
    };
    let mark = Mark::Granted(Grant { seat: 1, number: 7 }).word();
    performed(
        &mut words,
        &key,
        Action::Store(Word::Region(1), region.word()),
    );
    performed(&mut words, &key, Action::Store(Word::Mark(3074), mark));
    performed(
        &mut words,
        &key,
        Action::Store(
            Word::Kind(3),
            Kind::Large {
                first: 2,
                granules: 2,
            }
            .word(),
        ),
    );
    let size = LookCall {
        number: 1,
        offset: 8208,
        reason: LookFor::Size,
    };
    let pool = LookCall {
        number: 1,
        offset: 8208,
        reason: LookFor::Pool,
    };
    let size_half = looked(&mut words, &key, size, LookAt::Region, 5);
    let pool_half = looked(&mut words, &key, pool, LookAt::Region, 5);
    let ends: [EndAt; 2] = [EndAt::Large, EndAt::Other];
    for at in ends {
        let call = EndCall {
            unit: 3074,
            mark,
            number: 1,
            seat: 0,
            head: None,
        };
        let mut next = EndNext::Goes(at);
        for _ in 0..2 {
            if let EndNext::Goes(at) = next {
                next = at.told(call, performed(&mut words, &key, at.next(call)));
            }
        }
        let large = matches!(at, EndAt::Large) && matches!(next, EndNext::Large);
        let lost = matches!(at, EndAt::Other) && matches!(next, EndNext::NotHeld(Found::NoGrant));
        assert!(rt; large || lost, "the first one wins");
    }
    let LookNext::Goes(at) = size_half else {
        return Err(AllocError);
    };
    let size_end = looked(&mut words, &key, size, at, 2);
    assert!(rt;
        matches!(size_end, LookNext::NotHeld(Found::NoGrant)),
        "the mark is another"
    );
    let LookNext::Goes(at) = pool_half else {
        return Err(AllocError);
    };
    let pool_end = looked(&mut words, &key, pool, at, 1);
    assert!(rt;
        matches!(pool_end, LookNext::Differs),
        "the mark is another"
    );
    Ok(())
}
