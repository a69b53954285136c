use super::*;
use backend_bins::{BinAt, BinCall, BinJob, BinNext, Block};
use guards::{Side, Taking, WinAt, WinCall};
use pool_words::{Action, Key, Word, performed, value};
use std::test::Fail;
use word_codes::Guard;

const KEY: Key = Key {
    pool: 0,
    seats: 2,
    span: 16,
    region: 0,
    granularity: 0,
    gets: true,
    frees: true,
    fixed: false,
    keep: false,
};

fn block(first: u64, granules: u64) -> Block {
    Block { first, granules }
}

fn set(words: &mut [u64], word: Word, guard: Guard) {
    let _ = performed(words, &KEY, Action::Store(word, guard.word()));
}

/// Puts a block into its bin.
fn bin(words: &mut [u64], block: Block) {
    let call = BinCall {
        seat: 1,
        block,
        job: BinJob::Insert,
    };
    let mut at = BinAt::Lock;
    for _turn in 0..20 {
        let found = performed(words, &KEY, at.next(call));
        match at.told(call, found) {
            BinNext::Goes(next) => at = next,
            _ => return,
        }
    }
}

/// Makes the put until it ends or waits.
fn put(words: &mut [u64], call: PutCall, block: Block) -> PutNext {
    let mut at = PutAt::begins(block);
    for _turn in 0..80 {
        let found = performed(words, &KEY, at.next(call));
        match at.told(call, found) {
            PutNext::Goes(next) => at = next,
            end => return end,
        }
    }
    PutNext::Goes(at)
}

/// Empties the queue, until the drain ends or waits.
fn drain(words: &mut [u64], call: DrainCall) -> DrainNext {
    let mut at = DrainAt::Swap;
    for _turn in 0..200 {
        let found = performed(words, &KEY, at.next(call));
        match at.told(call, found) {
            DrainNext::Goes(next) => at = next,
            end => return end,
        }
    }
    DrainNext::Goes(at)
}

/// A region of the granules 1 to 12 has a block of 4 granules in hand between two free ones. Another seat has won the
/// far guard of the right one: the put joins the left one, loses the right one, gives its guard back, and queues what
/// it has. The other seat gives back too; the drain joins the whole region, and gives it away where the pool gives
/// regions back.
#[test]
fn neighbours_are_won_or_given_back(rt: HostRuntime) -> Result<(), Fail> {
    for gives in [true, false] {
        let mut words = vec![in rt.alloc(); 0; KEY.words()]?;
        let words = words.as_mut_slice();
        set(words, Word::Left(1), Guard::Wall);
        set(words, Word::Size(13), Guard::Wall);
        bin(words, block(1, 3));
        bin(words, block(8, 5));
        let other = WinCall {
            begin: 8,
            end: 13,
            granules: 5,
            first: Side::End,
            taking: Taking::ForUse,
        };
        let _ = performed(words, &KEY, WinAt::First.next(other));
        let call = PutCall {
            seat: 0,
            drained: false,
            gives,
        };
        assert!(rt; matches!(put(words, call, block(4, 4)), PutNext::Done));
        assert_eq!(rt; value(words, &KEY, Word::Queue), 2);
        assert_eq!(rt; value(words, &KEY, Word::Size(8)), Guard::Free(5).word());
        assert_eq!(rt; value(words, &KEY, Word::BinHead(2)), 0);
        let _ = performed(words, &KEY, WinAt::Back.next(other));
        let end = drain(words, DrainCall { seat: 0, gives });
        let at = |word: Word| value(words, &KEY, word);
        assert_eq!(rt; (at(Word::Queue), at(Word::BinHead(4))), (0, 0));
        if gives {
            let DrainNext::Gives { block, rest } = end else {
                return Err(Fail::from("a region that should have been given back"));
            };
            assert_eq!(rt; (block.first, block.granules, rest), (1, 12, None));
            assert_eq!(rt; (at(Word::Size(1)), at(Word::Left(13))), (1, 1));
        } else {
            assert!(rt; matches!(end, DrainNext::Drained));
            assert_eq!(rt; (at(Word::BinHead(11)), at(Word::Size(1))), (2, 15));
        }
    }
    Ok(())
}

/// A put waits for the lock of a neighbour's bin, which it has won. A whole region without neighbours is given back at
/// once, and a block beside one in use goes into its bin.
#[test]
fn puts_wait_for_locks_and_see_walls(rt: HostRuntime) -> Result<(), Fail> {
    let mut words = vec![in rt.alloc(); 0; KEY.words()]?;
    let words = words.as_mut_slice();
    let call = PutCall {
        seat: 0,
        drained: false,
        gives: true,
    };
    bin(words, block(2, 2));
    let _ = performed(words, &KEY, Action::Store(Word::BinLock(1), 2));
    assert!(rt; matches!(put(words, call, block(4, 1)), PutNext::Waits(1)));
    assert_eq!(rt; value(words, &KEY, Word::Size(2)), Guard::Coalescing.word());
    set(words, Word::Left(8), Guard::Wall);
    set(words, Word::Size(10), Guard::Wall);
    assert!(rt;
        matches!(
            put(words, call, block(8, 2)),
            PutNext::Gives(Block {
                first: 8,
                granules: 2
            })
        )
    );
    set(words, Word::Size(10), Guard::Used);
    let _ = performed(words, &KEY, Action::Store(Word::BinLock(1), 0));
    assert!(rt; matches!(put(words, call, block(8, 2)), PutNext::Done));
    assert_eq!(rt; value(words, &KEY, Word::Left(10)), Guard::Free(2).word());
    Ok(())
}
