use super::*;
use pool_words::{Action, Key, performed, value};
use std::test::Fail;

const KEY: Key = Key {
    pool: 0,
    seats: 2,
    span: 8,
    region: 0,
    granularity: 0,
    gets: true,
    frees: true,
    fixed: false,
    keep: false,
};

/// The bin whose list the test changes.
const BIN: u64 = 3;

fn call(item: u64) -> ListCall {
    ListCall {
        head: Word::BinHead(BIN),
        item,
    }
}

/// Puts an item in front of the list.
fn insert(words: &mut [u64], item: u64) {
    let mut at = InsertAt::Head;
    for _turn in 0..9 {
        let found = performed(words, &KEY, at.next(call(item)));
        match at.told(found) {
            InsertNext::Goes(next) => at = next,
            InsertNext::Inserted => return,
        }
    }
}

/// Takes an item out of the list.
fn remove(words: &mut [u64], item: u64) {
    let mut at = RemoveAt::Forward;
    for _turn in 0..9 {
        let found = performed(words, &KEY, at.next(call(item)));
        match at.told(found) {
            RemoveNext::Goes(next) => at = next,
            RemoveNext::Out => return,
        }
    }
}

/// The head, and what the words of items 1 to 3 lead to and back to.
fn links(words: &[u64]) -> (u64, [u64; 3], [u64; 3]) {
    let at = |word: Word| value(words, &KEY, word);
    (
        at(Word::BinHead(BIN)),
        [
            at(Word::Forward(1)),
            at(Word::Forward(2)),
            at(Word::Forward(3)),
        ],
        [
            at(Word::Backward(1)),
            at(Word::Backward(2)),
            at(Word::Backward(3)),
        ],
    )
}

/// The middle, the head and the last item leave, and one comes back.
#[test]
fn items_come_and_leave(rt: HostRuntime) -> Result<(), Fail> {
    let mut words = vec![in rt.alloc(); 0; KEY.words()]?;
    let words = words.as_mut_slice();
    for item in 1..4 {
        insert(words, item);
    }
    assert_eq!(rt; links(words), (4, [0, 2, 3], [3, 4, 0]));
    remove(words, 2);
    assert_eq!(rt; links(words), (4, [0, 2, 2], [4, 4, 0]));
    remove(words, 3);
    assert_eq!(rt; links(words), (2, [0, 2, 2], [0, 4, 0]));
    insert(words, 2);
    remove(words, 1);
    assert_eq!(rt; links(words), (3, [0, 0, 2], [3, 0, 0]));
    remove(words, 2);
    assert_eq!(rt; value(words, &KEY, Word::BinHead(BIN)), 0);
    Ok(())
}

/// A seat waits for a lock that another has, and has it once that one freed it.
#[test]
fn one_seat_has_the_lock(rt: HostRuntime) -> Result<(), Fail> {
    let mut words = vec![in rt.alloc(); 0; KEY.words()]?;
    let words = words.as_mut_slice();
    let word = Word::BinLock(BIN);
    let (first, second) = (Lock { word, seat: 0 }, Lock { word, seat: 1 });
    let found = performed(words, &KEY, first.next());
    assert!(rt; matches!(first.told(found), LockNext::Won));
    let found = performed(words, &KEY, second.next());
    assert!(rt; matches!(second.told(found), LockNext::Waits));
    let _ = performed(words, &KEY, first.frees());
    let found = performed(words, &KEY, second.next());
    assert!(rt; matches!(second.told(found), LockNext::Won));
    assert!(rt; matches!(first.next(), Action::Exchange { to: 1, .. }));
    assert_eq!(rt; value(words, &KEY, word), 2);
    Ok(())
}
