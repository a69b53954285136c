//! Where words lie in a small pool, and what each action makes of one.

use crate::actions::{Action, OfficeJob, performed, value};
use crate::words::{Key, Word};
use std::alloc::AllocError;

fn small_key() -> Key {
    Key {
        pool: 0,
        seats: 2,
        span: 4,
        region: 8192,
        granularity: 8192,
        gets: true,
        frees: true,
        fixed: false,
        keep: false,
    }
}

/// The first and the last word of some kinds, and indices that no word has. The numbers were counted by hand.
#[test]
fn words_lie_behind_one_another(rt: HostRuntime) {
    let key = small_key();
    assert_eq!(rt; key.words(), 13572);
    let table: [(Word, usize); 14] = [
        (Word::Mark(0), 0),
        (Word::Mark(4095), 4095),
        (Word::Mark(4096), 13572),
        (Word::Kind(4), 4100),
        (Word::Own(0), 4101),
        (Word::Own(4), 13572),
        (Word::Left(4), 4126),
        (Word::BinLock(0), 4127),
        (Word::Mailbox { seat: 1, class: 25 }, 5215),
        (Word::Mailbox { seat: 0, class: 26 }, 13572),
        (Word::Mailbox { seat: 2, class: 0 }, 13572),
        (Word::Orphans(0), 5216),
        (Word::Base(63), 13571),
        (Word::Base(u64::MAX), 13572),
    ];
    for (word, index) in table {
        assert_eq!(rt; word.index(&key), index, "at {index}");
    }
}

/// Each action finds and leaves what its name says, and changes nothing where there is no word.
#[test]
fn actions_write_one_word(rt: HostRuntime) -> Result<(), AllocError> {
    let key = small_key();
    let mut words = vec![in rt.alloc(); 0_u64; key.words()]?;
    let lock = Word::BinLock(7);
    let nowhere = Word::BinLock(512);
    let obtain = OfficeJob::Obtain { granules: 1 };
    let table: [(Action, u64, u64); 10] = [
        (Action::Store(lock, 3), 0, 3),
        (Action::Load(lock), 3, 3),
        (
            Action::Exchange {
                word: lock,
                from: 4,
                to: 5,
            },
            3,
            3,
        ),
        (
            Action::Exchange {
                word: lock,
                from: 3,
                to: 5,
            },
            3,
            5,
        ),
        (Action::Swap(lock, u64::MAX), 5, u64::MAX),
        (Action::Add(lock, 2), u64::MAX, 1),
        (Action::Store(nowhere, 9), 0, 1),
        (
            Action::Exchange {
                word: nowhere,
                from: 0,
                to: 9,
            },
            0,
            1,
        ),
        (Action::TakeOffice(obtain), 0, 1),
        (Action::Nothing, 0, 1),
    ];
    for (action, found, left) in table {
        assert_eq!(rt; performed(&mut words, &key, action), found, "before {left}");
        assert_eq!(rt; value(&words, &key, lock), left, "after {found}");
    }
    assert_eq!(rt; value(&words, &key, nowhere), 0);
    Ok(())
}
