use super::*;
use pool_words::{Key, Word, performed, value};
use std::test::Fail;
use word_codes::Guard;

const KEY: Key = Key {
    pool: 0,
    seats: 2,
    span: 8,
    region: 0,
    granularity: 0,
    gets: true,
    frees: true,
    fixed: false,
    keep: false,
};

/// The block of three granules from granule 2 on.
fn block(first: Side, taking: Taking) -> WinCall {
    WinCall {
        begin: 2,
        end: 5,
        granules: 3,
        first,
        taking,
    }
}

/// Makes the step, and tells what came of it.
fn turn(words: &mut [u64], call: WinCall, at: WinAt) -> WinNext {
    let found = performed(words, &KEY, at.next(call));
    at.told(call, found)
}

/// The words of the block's two guards.
fn guards(words: &[u64]) -> (u64, u64) {
    (
        value(words, &KEY, Word::Size(2)),
        value(words, &KEY, Word::Left(5)),
    )
}

/// One seat wins the block for use from its begin on, and another to join it from its end on. The first one loses and
/// gives back, and then the second one has both guards; or both lose, and the block is free again.
#[test]
fn one_seat_wins_both_guards(rt: HostRuntime) -> Result<(), Fail> {
    let mut words = vec![in rt.alloc(); 0; KEY.words()]?;
    let words = words.as_mut_slice();
    let free = Guard::Free(3).word();
    let used = block(Side::Begin, Taking::ForUse);
    let joined = block(Side::End, Taking::ToJoin);
    for gives_back_first in [true, false] {
        let _ = performed(words, &KEY, WinAt::Back.next(used));
        let _ = performed(words, &KEY, WinAt::Back.next(joined));
        assert_eq!(rt; guards(words), (free, free));
        assert!(rt;
            matches!(
                turn(words, used, WinAt::First),
                WinNext::Goes(WinAt::Second)
            )
        );
        assert!(rt;
            matches!(
                turn(words, joined, WinAt::First),
                WinNext::Goes(WinAt::Second)
            )
        );
        assert!(rt; matches!(turn(words, used, WinAt::Second), WinNext::Goes(WinAt::Back)));
        assert_eq!(rt; guards(words), (0, 1));
        if gives_back_first {
            assert!(rt; matches!(turn(words, used, WinAt::Back), WinNext::GivenBack));
            assert!(rt; matches!(turn(words, joined, WinAt::Second), WinNext::Won));
            assert_eq!(rt; guards(words), (1, 1));
            assert!(rt; matches!(turn(words, used, WinAt::First), WinNext::NotWon(1)));
        } else {
            assert!(rt;
                matches!(
                    turn(words, joined, WinAt::Second),
                    WinNext::Goes(WinAt::Back)
                )
            );
            assert!(rt; matches!(turn(words, used, WinAt::Back), WinNext::GivenBack));
            assert!(rt; matches!(turn(words, joined, WinAt::Back), WinNext::GivenBack));
            assert_eq!(rt; guards(words), (free, free));
        }
    }
    Ok(())
}
