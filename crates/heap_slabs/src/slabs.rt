//! The slabs that a heap keeps, by class and by where they lie.

ghost use Rattle.std.specs.Prelude.{◌≡◌, drop, IfOk};
ghost use Rattle.index_lists.specs.Lists.{members};
ghost use Rattle.heap_slabs.specs.Slabs.{no_slabs, record_at, after_add, after_replace, after_remove, suits, first_in};
ghost use Rattle.heap_slabs.specs.Slabs.{after_take_of, after_free_of, after_join_of};
ghost use Rattle.heap_slabs.specs.Slabs.{first_among, first_of_class, first_from};

use crate::records::HeapSlab;
use index_lists::IndexLists;
use pool_types::geometry::CLASSES;
use std::alloc::{AllocError, Global};
use std::marker::Model;

/// The slabs that a heap keeps. Contracts see, by class, the list of its slabs, the newest first, and by its first
/// granule the record of each slab.
#[derive(Drop)]
pub struct Slabs {
    classes: IndexLists,
    records: Vec<Option<HeapSlab>>,
}

impl Model for Slabs {
    ghost use Rattle.heap_slabs.specs.Slabs.{Kept, AreKept};

    ghost Value = { Kept };

    ghost view = { λ s. record { classes = s.classes; records = s.records.items } };

    ghost invariant = { λ s. AreKept s.classes s.records.items };
}

/// Which slab is looked for.
#[derive(Clone, Copy)]
pub enum Wanted {
    /// One with an object, private or in the rest.
    WithObject,

    /// One of which no object is held.
    Unused,

    /// Any one.
    Any,
}

impl Wanted {
    /// Whether a slab is one that is looked for.
    fn suits(self, kept: &HeapSlab) -> bool
        ensures { result ≡ suits self kept.now }
    {
        match self {
            Wanted::WithObject => kept.has_object(),
            Wanted::Unused => kept.is_unused(),
            Wanted::Any => true,
        }
    }
}

/// The record of a slab, if it is kept.
fn record_at(records: &[Option<HeapSlab>], slab: u64) -> Option<HeapSlab>
    ensures { result ≡ record_at records.now slab }
{
    let slab = slab as usize;
    if slab < records.len() {
        records[slab]
    } else {
        None
    }
}

/// The first slab of a list that is wanted.
fn first_in(
    wanted: Wanted,
    classes: &IndexLists,
    records: &[Option<HeapSlab>],
    list: usize,
) -> Option<HeapSlab>
    ensures { result ≡ first_in wanted records.now (members classes.now list) }
{
    if list >= classes.lists() {
        return None;
    }
    let mut next = classes.first(list);
    for _place in 0..classes.indices() {
        let slab = next?;
        if let Some(kept) = record_at(records, u64::from(slab))
            && wanted.suits(&kept)
        {
            return Some(kept);
        }
        next = classes.following(slab);
    }
    None
}

/// The first slab that is wanted, from a list on.
fn first_among(
    wanted: Wanted,
    classes: &IndexLists,
    records: &[Option<HeapSlab>],
    from: usize,
) -> Option<HeapSlab>
    ensures { result ≡ first_among wanted records.now (drop from classes.now.lists) }
{
    for list in from..classes.lists() {
        if let Some(kept) = first_in(wanted, classes, records, list) {
            return Some(kept);
        }
    }
    None
}

impl Slabs {
    /// No slabs, of a pool with so many granules. The error is a want of memory.
    pub fn make(alloc: Global, granules: u32) -> Result<Slabs, AllocError>
        ensures { IfOk result (λ made. made ≡ no_slabs granules) }
    {
        Ok(Slabs {
            classes: IndexLists::new(alloc, CLASSES, granules)?,
            records: vec![in alloc; None; granules as usize]?,
        })
    }

    /// The record of a slab, if it is kept.
    pub fn find(&self, slab: u64) -> Option<HeapSlab>
        ensures { result ≡ record_at self.now.records slab }
    {
        record_at(self.records.as_slice(), slab)
    }

    /// Adds a slab, as the newest of its class. One that is there, or is no granule or of no class, changes nothing.
    pub fn add(&mut self, added: HeapSlab)
        ensures { self.new ≡ after_add self.old added }
    {
        let list = usize::from(added.class);
        if record_at(self.records.as_slice(), added.slab).is_none()
            && list < self.classes.lists()
            && added.slab < u64::from(self.classes.indices())
        {
            self.classes.push_front(list, added.slab as u32);
            self.records[added.slab as usize] = Some(added);
        }
    }

    /// Puts this record in the place of the slab's, where the slab is there and has this class.
    pub fn replace(&mut self, next: HeapSlab)
        ensures { self.new ≡ after_replace self.old next }
    {
        if let Some(there) = record_at(self.records.as_slice(), next.slab)
            && there.class == next.class
        {
            self.records[next.slab as usize] = Some(next);
        }
    }

    /// Takes the next object of a slab; `below` is the private object behind the newest one. Nothing changes where the
    /// slab is not there, or has no object.
    pub fn take_of(&mut self, slab: u64, below: Option<u64>)
        ensures { self.new ≡ after_take_of self.old slab below }
    {
        if let Some(mut kept) = self.find(slab) {
            let _ = kept.take(below);
            self.replace(kept);
        }
    }

    /// Takes an object of a slab back, if the slab is there.
    pub fn free_of(&mut self, slab: u64, unit: u64)
        ensures { self.new ≡ after_free_of self.old slab unit }
    {
        if let Some(mut kept) = self.find(slab) {
            kept.free(unit);
            self.replace(kept);
        }
    }

    /// Joins so many objects that others gave back to a slab's private list, if the slab is there.
    pub fn join_of(&mut self, slab: u64, first: u64, joined: u64)
        ensures { self.new ≡ after_join_of self.old slab first joined }
    {
        if let Some(mut kept) = self.find(slab) {
            kept.join(first, joined);
            self.replace(kept);
        }
    }

    /// Takes a slab out. One that is not there changes nothing.
    pub fn remove(&mut self, slab: u64)
        ensures { self.new ≡ after_remove self.old slab }
    {
        if let Some(there) = record_at(self.records.as_slice(), slab) {
            self.classes.remove(usize::from(there.class), slab as u32);
            self.records[slab as usize] = None;
        }
    }

    /// The newest slab of a class that is wanted. No other class is looked at.
    pub fn first_of_class(&self, wanted: Wanted, class: u8) -> Option<HeapSlab>
        ensures { result ≡ first_of_class wanted self.now class }
    {
        first_in(
            wanted,
            &self.classes,
            self.records.as_slice(),
            usize::from(class),
        )
    }

    /// The first slab that is wanted, from a class on: class by class, each from the newest on.
    pub fn first_from(&self, wanted: Wanted, class: u8) -> Option<HeapSlab>
        ensures { result ≡ first_from wanted self.now class }
    {
        first_among(
            wanted,
            &self.classes,
            self.records.as_slice(),
            usize::from(class),
        )
    }
}
