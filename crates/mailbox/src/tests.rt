//! Two slabs are mailed at once to one keeper, who then takes the mailbox.

use crate::boxes::{BoxAt, BoxCall, BoxNext};
use crate::mailing::{MailAt, MailCall, MailNext};
use pool_words::{Action, Key, Word, performed, value};
use std::alloc::AllocError;
use word_codes::{MailKey, Mark, Next, Public, link_word};

fn small_key() -> Key {
    Key {
        pool: 0,
        seats: 2,
        span: 4,
        region: 8192,
        granularity: 8192,
        gets: true,
        frees: true,
        fixed: false,
        keep: false,
    }
}

/// So many steps of mailing a slab.
fn mailed(words: &mut [u64], key: &Key, slab: u64, begin: MailNext, steps: u8) -> MailNext {
    let mut next = begin;
    for _ in 0..steps {
        if let MailNext::Goes(at) = next {
            next = at.told(performed(words, key, at.next(MailCall { slab })));
        }
    }
    next
}

/// So many steps of taking the mailbox of seat 1 and class 3, from one of them on.
fn fetched(words: &mut [u64], key: &Key, begin: BoxAt, steps: u8) -> BoxNext {
    let call = BoxCall {
        seat: 1,
        class: 3,
        head: None,
    };
    let mut next = BoxNext::Goes(begin);
    for _ in 0..steps {
        if let BoxNext::Goes(at) = next {
            next = at.told(performed(words, key, at.next(call)));
        }
    }
    next
}

/// Slab 0 is found in the way by slab 2, which is mailed first. Only slab 0 has an object that was given back.
#[test]
fn two_slabs_are_mailed_and_taken(rt: HostRuntime) -> Result<(), AllocError> {
    let key = small_key();
    let mut words = vec![in rt.alloc(); 0_u64; key.words()]?;
    let home = Next::Mailbox(MailKey { seat: 1, class: 3 }).word();
    let stores: [(Word, u64); 4] = [
        (Word::Next(0), home),
        (Word::Next(2), home),
        (Word::Public(0), Public::Filled(2032).word()),
        (Word::Mark(2032), Mark::End.word()),
    ];
    for (word, stored) in stores {
        performed(&mut words, &key, Action::Store(word, stored));
    }
    let start = MailNext::Goes(MailAt::Next);
    let slow = mailed(&mut words, &key, 0, start, 3);
    let fast = mailed(&mut words, &key, 2, start, 4);
    assert!(rt; matches!(fast, MailNext::Mailed), "nothing was in the way");
    let lost = mailed(&mut words, &key, 0, slow, 1);
    let last = mailed(&mut words, &key, 0, lost, 2);
    assert!(rt; matches!(last, MailNext::Mailed), "a lost push goes on");
    assert_eq!(rt;
        value(&words, &key, Word::Mailbox { seat: 1, class: 3 }),
        link_word(Some(0))
    );

    let first = fetched(&mut words, &key, BoxAt::Take, 6);
    let joined = matches!(
        first,
        BoxNext::Joined {
            slab: 0,
            first: 2032,
            count: 1,
            rest: Some(2)
        }
    );
    assert!(rt; joined, "slab 0 was mailed last");
    let second = fetched(&mut words, &key, BoxAt::Next { slab: 2 }, 3);
    let settled = matches!(
        second,
        BoxNext::Unchanged {
            slab: 2,
            rest: None
        }
    );
    assert!(rt; settled, "slab 2 was mailed first");
    assert_eq!(rt; value(&words, &key, Word::Next(0)), home);
    assert_eq!(rt; value(&words, &key, Word::Next(2)), home);
    let third = fetched(&mut words, &key, BoxAt::Take, 1);
    assert!(rt;
        matches!(third, BoxNext::Empty),
        "the mailbox was taken whole"
    );
    Ok(())
}
