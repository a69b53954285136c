//! Two seats push on one chain, and one of them loses twice.

use crate::pushing::{PushAt, PushCall, PushNext};
use pool_words::{Key, Word, performed, value};
use std::alloc::AllocError;

fn small_key() -> Key {
    Key {
        pool: 0,
        seats: 2,
        span: 4,
        region: 8192,
        granularity: 8192,
        gets: true,
        frees: true,
        fixed: false,
        keep: false,
    }
}

/// One step of the push of a block on the queue, with the block's index and 1 in place of a link.
fn pushed(words: &mut [u64], key: &Key, block: u64, at: PushAt) -> PushNext {
    let call = PushCall {
        head: Word::Queue,
        link: Word::QueueLink(block),
        linked: at.found(),
        filled: block.saturating_add(1),
    };
    let found = performed(words, key, at.next(call));
    at.told(found)
}

/// The place after a step; a look where the push is done.
fn goes(next: PushNext) -> PushAt {
    match next {
        PushNext::Goes(at) => at,
        PushNext::Pushed { .. } => PushAt::Look,
    }
}

/// Block 0 is found in the way twice: by block 1, and by block 2.
#[test]
fn a_push_is_lost_twice(rt: HostRuntime) -> Result<(), AllocError> {
    let key = small_key();
    let mut words = vec![in rt.alloc(); 0_u64; key.words()]?;
    let mut slow = PushAt::Look;
    slow = goes(pushed(&mut words, &key, 0, slow));
    for block in 1..3 {
        slow = goes(pushed(&mut words, &key, 0, slow));
        let mut fast = PushAt::Look;
        for _ in 0..3 {
            fast = goes(pushed(&mut words, &key, block, fast));
        }
        assert!(rt; matches!(fast, PushAt::Look), "block {block} is pushed");
        slow = goes(pushed(&mut words, &key, 0, slow));
        assert_eq!(rt; slow.found(), block + 1, "block {block} is in the way");
    }
    slow = goes(pushed(&mut words, &key, 0, slow));
    slow = goes(pushed(&mut words, &key, 0, slow));
    assert!(rt; matches!(slow, PushAt::Look), "block 0 is pushed");
    let chain: [(Word, u64); 4] = [
        (Word::Queue, 1),
        (Word::QueueLink(0), 3),
        (Word::QueueLink(2), 2),
        (Word::QueueLink(1), 0),
    ];
    for (word, link) in chain {
        assert_eq!(rt; value(&words, &key, word), link);
    }
    Ok(())
}
