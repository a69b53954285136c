use super::*;
use std::test::Fail;

/// The class of objects of 8128 bytes, of which a slab has two.
const PAIRS: u8 = 25;

/// A slab's objects are taken from its end and come back newest first; what others gave back is joined at once; and the
/// header tells the record.
#[test]
fn slabs_give_and_take_back(rt: HostRuntime) {
    let mut slab = HeapSlab::begun(6, PAIRS);
    assert_eq!(rt; slab.take(None), Some(7176));
    assert_eq!(rt; slab.take(None), Some(6160));
    assert_eq!(rt; (slab.take(None), slab.has_object()), (None, false));
    slab.free(7176);
    assert_eq!(rt; slab.take(None), Some(7176));
    slab.free(6160);
    assert_eq!(rt; slab.to_header(), 8390658);
    assert_eq!(rt; HeapSlab::of_header(6, PAIRS, 8390658), slab);
    slab.join(7176, 1);
    assert_eq!(rt; (slab.is_unused(), slab.next_unit()), (true, Some(7176)));
    assert_eq!(rt; slab.take(Some(6160)), Some(7176));
    assert_eq!(rt; slab.next_unit(), Some(6160));
}

/// Slabs go by class and the newest first. What is there is not added again, and what is not there is neither changed
/// nor taken out.
#[test]
fn slabs_are_found_by_class(rt: HostRuntime) -> Result<(), Fail> {
    let mut slabs = Slabs::make(rt.alloc(), 16)?;
    for (slab, class) in [
        (2, 3),
        (4, PAIRS),
        (6, PAIRS),
        (8, PAIRS),
        (4, 3),
        (16, 3),
        (10, 26),
    ] {
        slabs.add(HeapSlab::begun(slab, class));
    }
    slabs.remove(10);
    slabs.replace(HeapSlab {
        handed: 2,
        count: 2,
        ..HeapSlab::begun(8, PAIRS)
    });
    slabs.replace(HeapSlab {
        count: 5,
        ..HeapSlab::begun(6, 3)
    });
    let found = |kept: Option<HeapSlab>| kept.map(|kept| kept.slab);
    let open = slabs.first_of_class(Wanted::WithObject, PAIRS);
    assert_eq!(rt; found(open), Some(6));
    let newest = slabs.first_of_class(Wanted::Any, PAIRS);
    assert_eq!(rt; found(newest), Some(8));
    assert_eq!(rt; found(slabs.first_from(Wanted::Unused, 4)), Some(6));
    slabs.remove(6);
    assert_eq!(rt; found(slabs.first_from(Wanted::Unused, 4)), Some(4));
    assert_eq!(rt; found(slabs.first_from(Wanted::Any, 0)), Some(2));
    assert_eq!(rt; found(slabs.first_of_class(Wanted::Any, 26)), None);
    assert_eq!(rt; (found(slabs.find(6)), found(slabs.find(99))), (None, None));
    Ok(())
}

/// The 33rd cached slab sends the 25 oldest away, and the newest of those that stay goes first where a heap leaves.
#[test]
fn heaps_give_up_what_they_keep(rt: HostRuntime) -> Result<(), Fail> {
    let mut heap = Heap::make(rt.alloc(), 128)?;
    for slab in 1..=40 {
        if heap.cached.surplus() == 0 {
            heap.cached.shelve(2 * slab);
        }
    }
    assert_eq!(rt; (heap.cached.len(), heap.cached.surplus()), (33, 25));
    for slab in 1..=25 {
        assert_eq!(rt; heap.cached.unshelve_oldest(), Some(2 * slab));
    }
    assert_eq!(rt;
        (heap.cached.oldest(), heap.cached.surplus()),
        (Some(52), 0)
    );
    heap.slabs.add(HeapSlab::begun(12, 7));
    for slab in 0..8 {
        assert!(rt; matches!(heap.next_to_leave(), Leaving::Cached(_)));
        assert_eq!(rt; heap.cached.unshelve_newest(), Some(66 - 2 * slab));
    }
    assert!(rt; matches!(heap.next_to_leave(), Leaving::Unused(_)));
    let mut held = HeapSlab::begun(12, 7);
    let _ = held.take(None);
    heap.slabs.replace(held);
    assert!(rt; matches!(heap.next_to_leave(), Leaving::Held(_)));
    heap.slabs.remove(12);
    assert!(rt; matches!(heap.next_to_leave(), Leaving::Nothing));
    Ok(())
}

/// A full roll stays as it is.
#[test]
fn rolls_have_their_room(rt: HostRuntime) -> Result<(), Fail> {
    let mut roll: Roll<u64> = Roll::make(rt.alloc(), 2)?;
    for item in 7..10 {
        roll.push(item);
    }
    assert_eq!(rt; (roll.len(), roll.get(0), roll.get(2)), (2, Some(7), None));
    assert_eq!(rt;
        (roll.pop(), roll.pop(), roll.pop()),
        (Some(8), Some(7), None)
    );
    roll.push(1);
    roll.clear();
    assert_eq!(rt; roll.len(), 0);
    Ok(())
}
