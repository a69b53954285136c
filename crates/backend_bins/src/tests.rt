use super::*;
use guards::{Side, Taking, WinAt, WinCall};
use pool_words::{Key, Word, performed, value};
use std::test::Fail;
use word_codes::Guard;

const KEY: Key = Key {
    pool: 0,
    seats: 2,
    span: 16,
    region: 0,
    granularity: 0,
    gets: true,
    frees: true,
    fixed: false,
    keep: false,
};

fn block(first: u64, granules: u64) -> Block {
    Block { first, granules }
}

/// Puts a block into its bin.
fn bin(words: &mut [u64], block: Block) {
    let call = BinCall {
        seat: 1,
        block,
        job: BinJob::Insert,
    };
    let mut at = BinAt::Lock;
    for _turn in 0..20 {
        let found = performed(words, &KEY, at.next(call));
        match at.told(call, found) {
            BinNext::Goes(next) => at = next,
            _ => return,
        }
    }
}

/// Scans from this step on until the scan takes something, waits or ends.
fn scan(words: &mut [u64], call: ScanCall, from: ScanAt) -> ScanNext {
    let mut at = from;
    for _turn in 0..2000 {
        let found = performed(words, &KEY, at.next(call));
        match at.told(call, found) {
            ScanNext::Goes(next) => at = next,
            end => return end,
        }
    }
    ScanNext::Goes(at)
}

/// The first half of another seat's win of a block.
fn half(block: Block) -> WinCall {
    WinCall {
        begin: block.first,
        end: block.end(),
        granules: block.granules,
        first: Side::End,
        taking: Taking::ToJoin,
    }
}

/// A scan passes a block that another seat has half won, and takes the one behind it. Where no other is left, it waits,
/// and takes the block once its guard was given back. What it took is in no list.
#[test]
fn scans_pass_half_won_blocks(rt: HostRuntime) -> Result<(), Fail> {
    let mut words = vec![in rt.alloc(); 0; KEY.words()]?;
    let words = words.as_mut_slice();
    let call = ScanCall {
        seat: 0,
        want: Want {
            granules: 3,
            slab: false,
        },
    };
    bin(words, block(1, 2));
    bin(words, block(10, 3));
    bin(words, block(5, 3));
    let other = half(block(5, 3));
    let _ = performed(words, &KEY, WinAt::First.next(other));
    let took = scan(words, call, call.begins());
    assert!(rt;
        matches!(
            took,
            ScanNext::Took(Block {
                first: 10,
                granules: 3
            })
        )
    );
    let ScanNext::WaitsHalf { bin, again } = scan(words, call, call.begins()) else {
        return Err(Fail::from("a scan that should have waited"));
    };
    assert_eq!(rt;
        (bin, again.seen, value(words, &KEY, Word::BinHead(2))),
        (2, 0, 6)
    );
    let _ = performed(words, &KEY, WinAt::Back.next(other));
    let took = scan(words, call, again);
    assert!(rt;
        matches!(
            took,
            ScanNext::Took(Block {
                first: 5,
                granules: 3
            })
        )
    );
    assert_eq!(rt; value(words, &KEY, Word::BinHead(2)), 0);
    assert!(rt; matches!(scan(words, call, again), ScanNext::Nothing { seen: 0 }));
    let _ = performed(words, &KEY, again.next(call));
    Ok(())
}

/// A slab is cut from a block that begins at an odd granule. Both rests are in their bins, and stale guards within the
/// block are gone.
#[test]
fn slabs_are_cut_at_even_granules(rt: HostRuntime) -> Result<(), Fail> {
    let mut words = vec![in rt.alloc(); Guard::Free(9).word(); KEY.words()]?;
    let words = words.as_mut_slice();
    let want = Want {
        granules: 2,
        slab: true,
    };
    assert!(rt; !want.fits(block(3, 2)) && want.fits(block(3, 3)) && want.fits(block(4, 2)));
    let call = CutCall {
        seat: 0,
        block: block(3, 6),
        piece: want.piece(block(3, 6)),
    };
    for number in [0, 2] {
        let _ = performed(
            words,
            &KEY,
            pool_words::Action::Store(Word::BinLock(number), 0),
        );
        let _ = performed(
            words,
            &KEY,
            pool_words::Action::Store(Word::BinHead(number), 0),
        );
    }
    let mut next = call.begins();
    for _turn in 0..40 {
        let CutNext::Goes(at) = next else {
            break;
        };
        let found = performed(words, &KEY, at.next(call));
        next = at.told(call, found);
    }
    assert!(rt; matches!(next, CutNext::Done));
    let at = |word: Word| value(words, &KEY, word);
    assert_eq!(rt; (at(Word::BinHead(0)), at(Word::BinHead(2))), (4, 7));
    assert_eq!(rt; [at(Word::Size(3)), at(Word::Left(4))], [4, 4]);
    assert_eq!(rt; [at(Word::Size(4)), at(Word::Left(6))], [0, 0]);
    assert_eq!(rt; [at(Word::Size(6)), at(Word::Left(9))], [6, 6]);
    Ok(())
}
