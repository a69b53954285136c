//! One slab: which of its objects were handed out, the newest that came back, and its header word.
//!
//! A slab has a head, and behind it objects of one size. The record follows a block of oneTBB's
//! `src/tbbmalloc/frontend.cpp` (`Block`: `bumpPtr`, `freeList` and `allocatedCount`). That objects go by their number
//! is this project's own.
#![tactic(auto)]

ghost use Rattle.std.specs.Prelude.{◌≡◌, ◌≤◌, ◌<◌, IsTrue, IsNone, ◌↔◌, None, IfSome, OnSome, IfNone};
ghost use Rattle.slab_core.specs.Slabs.{IsValid, IsNewest, IsBelowHead, IsUsedUp, after_take, after_free, next_object};

use size_classes::Class;

mod header;
pub mod laws;

/// The record of a slab. Objects go by their number in the slab, from 0 for the one at the slab's end.
///
/// A record is valid where `count` is at most `handed`, `handed` is at most the objects of the class, and `head` is an
/// object below `handed` exactly where `count` is below `handed`.
#[derive(Clone, Copy, Debug, PartialEq, Eq)]
pub struct SlabRec {
    /// The class of the slab's objects.
    pub class: Class,

    /// The index of the slab's first granule.
    pub index: u32,

    /// How many objects of the rest were handed out; they are those below this number.
    pub handed: u32,

    /// The newest of the private objects, which were handed out and came back.
    pub head: Option<u32>,

    /// How many objects are held.
    pub count: u32,
}

impl SlabRec {
    /// A fresh slab, of which no object was handed out.
    pub fn begun(class: Class, index: u32) -> Self
        ensures exact { result ≡ record { class = class; index = index; handed = 0; head = None; count = 0 } }
        ensures valid { IsValid result }
    {
        SlabRec {
            class,
            index,
            handed: 0,
            head: None,
            count: 0,
        }
    }

    /// Whether the record is valid.
    pub fn is_valid(&self) -> bool
        ensures { IsTrue result ↔ IsValid self.now }
    {
        self.count <= self.handed && self.handed <= self.class.objects() && self.has_right_head()
    }

    /// Whether the head is an object that was handed out, where fewer are held than that, and is none where all are.
    fn has_right_head(&self) -> bool
        ensures { IsTrue result ↔ IsNewest self.now.head self.now.count self.now.handed }
    {
        match self.head {
            Some(object) => object < self.handed && self.count < self.handed,
            None => self.handed <= self.count,
        }
    }

    /// Takes the newest private object, or where there is none the next of the rest. `below` is the private object after
    /// the head. None is the answer exactly where there is neither, and then nothing is changed.
    pub fn take(&mut self, below: Option<u32>) -> Option<u32>
        requires valid { IsValid self.old }
        requires below { IsBelowHead self.old below }
        ensures none { IsNone result ↔ IsUsedUp self.old }
        ensures object { IfSome result (λ object. object ≡ next_object self.old) }
        ensures taken { OnSome result (self.new ≡ after_take self.old below) }
        ensures kept { IfNone result (self.new ≡ self.old) }
        ensures valid { IsValid self.new }
    {
        if let Some(object) = self.head {
            self.head = below;
            self.count += 1;
            return Some(object);
        }
        if self.handed >= self.class.objects() {
            return None;
        }
        let object = self.handed;
        self.handed += 1;
        self.count += 1;
        Some(object)
    }

    /// Takes an object back: it becomes the newest private one. The object is one that was handed out and is not
    /// private. The record names only the newest private object, so that it is none of the others is the caller's to
    /// know.
    pub fn free(&mut self, object: u32)
        requires valid { IsValid self.old }
        requires held { 1 ≤ self.old.count }
        requires handed { object < self.old.handed }
        ensures freed { self.new ≡ after_free self.old object }
        ensures valid { IsValid self.new }
    {
        self.head = Some(object);
        self.count -= 1;
    }

    /// Whether no object is held.
    pub fn is_empty(&self) -> bool
        ensures { IsTrue result ↔ (self.now.count ≡ 0) }
    {
        self.count == 0
    }
}

#[cfg(test)]
mod tests;
