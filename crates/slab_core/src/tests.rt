use super::*;
use size_classes::class_of;

/// Taking from a slab of two objects, until it is used up.
#[test]
fn takes_the_rest_object_by_object(rt: HostRuntime) {
    let class = class_of(8128).expect(&rt, "the size has a class");
    let mut slab = SlabRec::begun(class, 6);
    assert!(rt; slab.is_empty());
    assert_eq!(rt; slab.take(None), Some(0));
    assert_eq!(rt; slab.take(None), Some(1));
    assert!(rt; !slab.is_empty());
    assert_eq!(rt; slab.take(None), None);
    assert_eq!(rt; slab.index, 6);
    assert_eq!(rt; slab.count, 2);
}

/// Of three objects that were handed out, 2 and 0 came back, the newest of which is 2.
#[test]
fn takes_private_objects_first(rt: HostRuntime) {
    let class = class_of(100).expect(&rt, "the size has a class");
    assert_eq!(rt; class.objects(), 145);
    let mut slab = SlabRec {
        class,
        index: 0,
        handed: 3,
        head: Some(2),
        count: 1,
    };
    assert_eq!(rt; slab.take(Some(0)), Some(2));
    assert_eq!(rt; slab.head, Some(0));
    assert_eq!(rt; slab.take(None), Some(0));
    assert_eq!(rt; slab.take(None), Some(3));
    assert_eq!(rt; slab.handed, 4);
}

/// Of three objects that were handed out, 0 and then 2 come back. They are given again before the rest is, 2 first.
#[test]
fn gives_freed_objects_newest_first(rt: HostRuntime) {
    let class = class_of(100).expect(&rt, "the size has a class");
    assert_eq!(rt; class.objects(), 145);
    let mut slab = SlabRec {
        class,
        index: 4,
        handed: 3,
        head: None,
        count: 3,
    };
    slab.free(0);
    assert_eq!(rt; slab.head, Some(0));
    slab.free(2);
    assert_eq!(rt; slab.head, Some(2));
    assert_eq!(rt; slab.count, 1);
    assert_eq!(rt; slab.take(Some(0)), Some(2));
    assert_eq!(rt; slab.take(None), Some(0));
    assert_eq!(rt; slab.take(None), Some(3));
    assert_eq!(rt; slab.count, 4);
}

/// The last held object comes back.
#[test]
fn is_empty_once_all_came_back(rt: HostRuntime) {
    let class = class_of(8128).expect(&rt, "the size has a class");
    let mut slab = SlabRec::begun(class, 0);
    assert_eq!(rt; slab.take(None), Some(0));
    slab.free(0);
    assert!(rt; slab.is_empty());
    assert_eq!(rt; slab.handed, 1);
    assert_eq!(rt; slab.head, Some(0));
}

/// Headers of records of a class, by the size, how many objects were handed out and are held, and the head.
#[test]
fn packs_and_unpacks_headers(rt: HostRuntime) {
    let table: [(u64, u32, u32, Option<u32>, u64); 7] = [
        (8, 0, 0, None, 0),
        (100, 1, 1, None, 2049),
        (100, 1, 0, Some(0), 4194305),
        (100, 3, 1, Some(2), 12584963),
        (8128, 2, 0, Some(1), 8388610),
        (8, 2032, 2032, None, 4163568),
        (8, 2032, 0, Some(2031), 8522827760),
    ];
    for (size, handed, count, head, word) in table {
        let class = class_of(size).expect(&rt, "the size has a class");
        let slab = SlabRec {
            class,
            index: 12,
            handed,
            head,
            count,
        };
        assert!(rt; slab.is_valid(), "at {word}");
        assert_eq!(rt; slab.to_header(), word);
        assert_eq!(rt;
            SlabRec::of_header(class, 12, word),
            Some(slab),
            "at {word}"
        );
    }
}

/// Words that are no header of a class with 145 objects.
#[test]
fn refuses_what_is_no_header(rt: HostRuntime) {
    let class = class_of(100).expect(&rt, "the size has a class");
    assert_eq!(rt; class.objects(), 145);
    let table: [(&str, u64); 8] = [
        ("more held than were handed out", 4097),
        ("more handed out than the class has", 299154),
        ("fewer held than were handed out, and no head", 1),
        ("all held, and a head", 4196353),
        ("a head that was not handed out", 8388609),
        ("a bit above the three numbers", 8589934592),
        ("a bit far above them", 9223372036854777857),
        ("all bits", u64::MAX),
    ];
    for (what, word) in table {
        assert!(rt; SlabRec::of_header(class, 0, word).is_none(), "{what}");
    }
}
