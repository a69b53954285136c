//! Several lists over the same indices, linked both ways in flat arrays, each index in at most one of them.
//!
//! oneTBB keeps such lists with a pair of addresses in each element: of free blocks in the bins of
//! `src/tbbmalloc/backend.cpp` (`Bin`, `FreeBlock`), and of the slabs of a class in a bin of `src/tbbmalloc/frontend.cpp`
//! (`Bin`, `Block`). Indices in place of the addresses, and arrays beside the elements, are this project's own.
//!
//! Each call but `new` takes constant time, however many lists, indices and members there are, and takes no memory.
#![tactic(auto)]

ghost use Rattle.std.specs.Prelude.{◌≡◌, ◌<◌, ◌+◌, ℕ, length, slice_get, Some, IfOk, IfSome};
ghost use Rattle.index_lists.specs.Lists.{empty_lists, members, first_of, IsIn, IsInSome, IsInNone, AreApart, with_first, without, IsFollowing};
ghost use Rattle.index_lists.specs.Links.{after_set_link};

#[cfg(test)]
mod tests;

use std::alloc::{AllocError, Global};
use std::marker::Model;

/// Lists that go by their numbers, from 0 on, of indices below a number. Contracts see them as the members of each
/// list, from its first on, and how many indices there are.
#[derive(Drop)]
pub struct IndexLists {
    // The first member of each list.
    heads: Vec<Option<u32>>,

    // By its index, the member behind each member, and the one before it. What stands at an index that is in no list
    // counts for nothing.
    after: Vec<Option<u32>>,
    before: Vec<Option<u32>>,
}

impl Model for IndexLists {
    ghost use Rattle.index_lists.specs.Lists.{Lists};
    ghost use Rattle.index_lists.specs.Links.{walked, AreLinked};

    ghost Value = { Lists };

    ghost view = { λ links. walked links.heads.items links.after.items };

    ghost invariant = { λ links. AreLinked links.heads.items links.after.items links.before.items
        (walked links.heads.items links.after.items) };
}

impl IndexLists {
    /// So many lists, all empty, over the indices below `indices`. The error is a want of memory.
    pub fn new(alloc: Global, lists: usize, indices: u32) -> Result<Self, AllocError>
        ensures { IfOk result (λ made. made ≡ empty_lists lists indices) }
    {
        Ok(IndexLists {
            heads: vec![in alloc; None; lists]?,
            after: vec![in alloc; None; indices as usize]?,
            before: vec![in alloc; None; indices as usize]?,
        })
    }

    /// How many lists there are.
    pub fn lists(&self) -> usize
        ensures { result ≡ length self.now.lists }
    {
        self.heads.len()
    }

    /// How many indices there are. No index stands in two places, of one list or of two.
    pub fn indices(&self) -> u32
        ensures exact { result ≡ self.now.indices }
        ensures apart { AreApart self.now }
    {
        self.after.len() as u32
    }

    /// The first member of a list. None is the answer where the list is empty.
    pub fn first(&self, list: usize) -> Option<u32>
        requires { list < length self.now.lists }
        ensures exact { result ≡ first_of (members self.now list) }
        ensures place { result ≡ slice_get (members self.now list) 0 }
        ensures member { IfSome result (IsIn self.now list) }
        ensures below { IfSome result (λ index. index < self.now.indices) }
    {
        self.heads[list]
    }

    /// The member right behind this one, in the list that it is in. None is the answer where it is the last. So a walk
    /// that begins with `first` goes through a list, one place at a time.
    pub fn following(&self, index: u32) -> Option<u32>
        requires { IsInSome self.now index }
        ensures exact { IsFollowing self.now index result }
        ensures place { (list place : ℕ) → slice_get (members self.now list) place ≡ Some index →
            result ≡ slice_get (members self.now list) (place + 1) }
        ensures member { (list : ℕ) → IsIn self.now list index → IfSome result (IsIn self.now list) }
        ensures below { IfSome result (λ next. next < self.now.indices) }
    {
        self.after[index as usize]
    }

    /// Makes an index that is in no list the first member of this one.
    pub fn push_front(&mut self, list: usize, index: u32)
        requires list { list < length self.old.lists }
        requires index { index < self.old.indices }
        requires free { IsInNone self.old index }
        ensures first { self.new ≡ with_first self.old list index }
        ensures member { IsIn self.new list index }
    {
        let head = self.heads[list];
        self.after[index as usize] = head;
        self.before[index as usize] = None;
        set_link(self.before.as_mut_slice(), head, Some(index));
        self.heads[list] = Some(index);
    }

    /// Takes a member out of its list. The others keep their order.
    pub fn remove(&mut self, list: usize, index: u32)
        requires { IsIn self.old list index }
        ensures gone { self.new ≡ without self.old list index }
        ensures free { IsInNone self.new index }
    {
        let next = self.after[index as usize];
        let previous = self.before[index as usize];
        set_link(self.after.as_mut_slice(), previous, next);
        set_link(self.before.as_mut_slice(), next, previous);
        if previous.is_none() {
            self.heads[list] = next;
        }
    }
}

// Sets the link at an index, if there is one.
fn set_link(links: &mut [Option<u32>], index: Option<u32>, to: Option<u32>)
    requires { IfSome index (λ index. index < length links.old) }
    ensures { links.new ≡ after_set_link links.old index to }
{
    if let Some(index) = index {
        links[index as usize] = to;
    }
}
