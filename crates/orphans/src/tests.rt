//! A keeper leaves two slabs while another pushes one back; a third seat adopts.

use crate::adopting::{AdoptAt, AdoptCall, AdoptNext};
use crate::leaving::{LeaveAt, LeaveCall, LeaveNext};
use chain_words::PushAt;
use pool_words::{Action, Key, Word, performed, value};
use std::alloc::AllocError;
use word_codes::{MailKey, Next, Own, Public};

fn small_key() -> Key {
    Key {
        pool: 0,
        seats: 3,
        span: 6,
        region: 8192,
        granularity: 8192,
        gets: true,
        frees: true,
        fixed: false,
        keep: false,
    }
}

/// So many steps of leaving a slab of class 3, whose header is its index and 100.
fn left(words: &mut [u64], key: &Key, slab: u64, begin: LeaveNext, steps: u8) -> LeaveNext {
    let call = LeaveCall {
        slab,
        class: 3,
        header: slab.saturating_add(100),
    };
    let mut next = begin;
    for _ in 0..steps {
        if let LeaveNext::Goes(at) = next {
            next = at.told(performed(words, key, at.next(call)));
        }
    }
    next
}

/// So many steps of seat 2, which adopts slabs of class 3.
fn adopted(words: &mut [u64], key: &Key, begin: AdoptAt, steps: u8) -> AdoptNext {
    let call = AdoptCall { seat: 2, class: 3 };
    let mut next = AdoptNext::Goes(begin);
    for _ in 0..steps {
        if let AdoptNext::Goes(at) = next {
            next = at.told(performed(words, key, at.next(call)));
        }
    }
    next
}

/// Slab 4 was given an object back and is not left. Slab 2 is pushed back while slab 0 is being pushed, which
/// then lies in front of it.
#[test]
fn slabs_are_left_and_adopted(rt: HostRuntime) -> Result<(), AllocError> {
    let key = small_key();
    let mut words = vec![in rt.alloc(); 0_u64; key.words()]?;
    performed(
        &mut words,
        &key,
        Action::Store(Word::Public(4), Public::Filled(9000).word()),
    );
    let close = LeaveNext::Goes(LeaveAt::Close);
    let full = left(&mut words, &key, 4, close, 1);
    assert!(rt;
        matches!(full, LeaveNext::Filled),
        "its mail is to be taken first"
    );
    let slow = left(&mut words, &key, 0, close, 5);
    assert_eq!(rt; value(&words, &key, Word::Own(0)), Own::Orphan.word());
    let back = left(
        &mut words,
        &key,
        2,
        LeaveNext::Goes(LeaveAt::Push(PushAt::Look)),
        3,
    );
    assert!(rt; matches!(back, LeaveNext::Left), "nothing was in the way");
    let lost = left(&mut words, &key, 0, slow, 1);
    let last = left(&mut words, &key, 0, lost, 2);
    assert!(rt; matches!(last, LeaveNext::Left), "a lost push goes on");

    let first = adopted(&mut words, &key, AdoptAt::Take, 5);
    let is_first = matches!(
        first,
        AdoptNext::Adopted {
            slab: 0,
            header: 100,
            rest: Some(2)
        }
    );
    assert!(rt; is_first, "slab 0 lies in front");
    assert_eq!(rt; value(&words, &key, Word::Own(0)), Own::Kept(2).word());
    let home = Next::Mailbox(MailKey { seat: 2, class: 3 }).word();
    assert_eq!(rt; value(&words, &key, Word::Next(0)), home);
    let spared = adopted(&mut words, &key, AdoptAt::Spare { slab: 2 }, 1);
    assert!(rt;
        matches!(
            spared,
            AdoptNext::Spared {
                slab: 2,
                rest: None
            }
        ),
        "slab 2 is the last"
    );
    let empty = adopted(&mut words, &key, AdoptAt::Take, 1);
    assert!(rt;
        matches!(empty, AdoptNext::Empty),
        "the chain was taken whole"
    );
    Ok(())
}
