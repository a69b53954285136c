//! What lists hold after scripts of pushes and removals, as a walk along them finds it.
ghost use Rattle.std.specs.Prelude.{◌≡◌, ◌<◌, ℕ, true, false, length, IfOk};
ghost use Rattle.index_lists.specs.Lists.{members, times, IsIn, IsInNone};

use crate::IndexLists;
use std::alloc::{AllocError, Global};
use std::test::Fail;

/// A step of a script, with the list and the index.
#[derive(Clone, Copy)]
enum Step {
    Push(usize, u32),
    Remove(usize, u32),
}

use Step::{Push, Remove};

// The members of a list.
fn walk(alloc: Global, lists: &IndexLists, list: usize) -> Result<Vec<u32>, AllocError>
    requires { list < length lists.now.lists }
    ensures { IfOk result (λ found. found.items ≡ members lists.now list) }
{
    let mut found = Vec::new(alloc);
    let mut next = lists.first(list);
    while let Some(index) = next {
        found.push(index)?;
        next = lists.following(index);
    }
    Ok(found)
}

// Whether the index stands in the list.
fn stands_in(alloc: Global, lists: &IndexLists, list: usize, index: u32) -> Result<bool, AllocError>
    requires { list < length lists.now.lists }
    ensures yes { IfOk result (λ stands. stands ≡ true → IsIn lists.now list index) }
    ensures no { IfOk result (λ stands. stands ≡ false → times index (members lists.now list) ≡ 0) }
{
    let found = walk(alloc, lists, list)?;
    let found = found.as_slice();
    for other in found {
        if *other == index {
            return Ok(true);
        }
    }
    Ok(false)
}

// Whether the index stands in no list.
fn is_free(alloc: Global, lists: &IndexLists, index: u32) -> Result<bool, AllocError>
    ensures { IfOk result (λ free. free ≡ true → IsInNone lists.now index) }
{
    for list in 0..lists.lists() {
        if stands_in(alloc, lists, list, index)? {
            return Ok(false);
        }
    }
    Ok(true)
}

// Makes a step, and fails where its condition does not hold.
fn make(alloc: Global, lists: &mut IndexLists, step: Step) -> Result<(), Fail> {
    let (Push(list, index) | Remove(list, index)) = step;
    if list >= lists.lists() || index >= lists.indices() {
        return Err(Fail::from("no such list or index"));
    }
    match step {
        Push(..) if is_free(alloc, lists, index)? => lists.push_front(list, index),
        Remove(..) if stands_in(alloc, lists, list, index)? => lists.remove(list, index),
        _ => return Err(Fail::from("a step that may not be made")),
    }
    Ok(())
}

#[test]
fn the_newest_comes_first_and_the_others_keep_their_order(rt: HostRuntime) -> Result<(), Fail> {
    let table: [(&str, &[Step], [&[u32]; 2]); 9] = [
        ("nothing", &[], [&[], &[]]),
        ("one", &[Push(0, 3)], [&[3], &[]]),
        (
            "newest first",
            &[Push(0, 3), Push(0, 5), Push(0, 0)],
            [&[0, 5, 3], &[]],
        ),
        (
            "the first leaves",
            &[Push(1, 3), Push(1, 5), Push(1, 0), Remove(1, 0)],
            [&[], &[5, 3]],
        ),
        (
            "one from the midst leaves",
            &[Push(1, 3), Push(1, 5), Push(1, 0), Remove(1, 5)],
            [&[], &[0, 3]],
        ),
        (
            "the last leaves",
            &[Push(1, 3), Push(1, 5), Push(1, 0), Remove(1, 3)],
            [&[], &[0, 5]],
        ),
        (
            "the only one leaves",
            &[Push(0, 7), Remove(0, 7)],
            [&[], &[]],
        ),
        (
            "the same index elsewhere",
            &[Push(0, 7), Push(0, 2), Push(1, 4), Remove(0, 7), Push(1, 7)],
            [&[2], &[7, 4]],
        ),
        (
            "one comes back",
            &[
                Push(0, 1),
                Push(0, 2),
                Push(0, 3),
                Remove(0, 2),
                Push(0, 2),
                Remove(0, 1),
            ],
            [&[2, 3], &[]],
        ),
    ];
    for (name, script, wanted) in table {
        let mut lists = IndexLists::new(rt.alloc(), 2, 8)?;
        for step in script {
            make(rt.alloc(), &mut lists, *step)?;
        }
        for list in 0..lists.lists() {
            let found = walk(rt.alloc(), &lists, list)?;
            assert_eq!(rt;
                Some(&found.as_slice()),
                wanted.get(list),
                "{name}, list {list}"
            );
        }
    }
    Ok(())
}

#[test]
fn lists_and_indices_are_counted(rt: HostRuntime) -> Result<(), Fail> {
    for (count, indices) in [(0, 0), (1, 9), (512, 100)] {
        let lists = IndexLists::new(rt.alloc(), count, indices)?;
        assert_eq!(rt; (lists.lists(), lists.indices()), (count, indices));
    }
    Ok(())
}
