//! The record of a slab that a heap keeps.

ghost use Rattle.std.specs.Prelude.{◌≡◌, ltb};
ghost use Rattle.size_classes.specs.Classes.{class_objects};
ghost use Rattle.heap_slabs.specs.Records.{slab_start, unit_of, objects_from, begun, rest_unit, next_unit, has_object};
ghost use Rattle.heap_slabs.specs.Records.{after_take, after_free, after_join, is_unused, head_field, head_in};
ghost use Rattle.heap_slabs.specs.Records.{to_header, of_header};

use pool_types::geometry::{GRANULE_BYTES, SLAB_BYTES, UNIT_BYTES};
use size_classes::numbered::{objects_of, offset_of, size_of};

/// The record of a slab. Objects go by the unit at which they begin.
#[derive(Clone, Copy, Debug, PartialEq, Eq)]
pub struct HeapSlab {
    /// The index of the slab's first granule.
    pub slab: u64,

    /// The number of the class of its objects.
    pub class: u8,

    /// How many objects of the rest were handed out.
    pub handed: u64,

    /// How many objects are held, or came back and were not joined.
    pub count: u64,

    /// The newest of the private objects, which were handed out and came back.
    pub head: Option<u64>,
}

/// The unit at which a slab begins.
fn slab_start(slab: u64) -> u64
    ensures { result ≡ slab_start slab }
{
    slab.saturating_mul(GRANULE_BYTES / UNIT_BYTES)
}

/// The unit at which an object of a slab begins.
#[tactic(auto, unfolding(crate::specs::Records::unit_of))]
pub fn unit_of(slab: u64, class: u8, object: u64) -> u64
    ensures { result ≡ unit_of slab class object }
{
    slab_start(slab).saturating_add(offset_of(class, object) / UNIT_BYTES)
}

/// How many objects of a slab begin at a unit or behind it.
#[tactic(auto, unfolding(crate::specs::Records::objects_from))]
fn objects_from(slab: u64, class: u8, unit: u64) -> u64
    ensures { result ≡ objects_from slab class unit }
{
    let within = unit.saturating_sub(slab_start(slab));
    let behind = (SLAB_BYTES / UNIT_BYTES).saturating_sub(within);
    behind.checked_div(size_of(class) / UNIT_BYTES).unwrap_or(0)
}

/// The head as it stands in a header.
fn head_field(slab: u64, class: u8, head: Option<u64>) -> u64
    ensures { result ≡ head_field slab class head }
{
    match head {
        Some(unit) => objects_from(slab, class, unit),
        None => 0,
    }
}

/// The head that stands in a header.
fn head_in(slab: u64, class: u8, field: u64) -> Option<u64>
    ensures { result ≡ head_in slab class field }
{
    let object = field.checked_sub(1)?;
    Some(unit_of(slab, class, object))
}

impl HeapSlab {
    /// A slab of which no object was handed out.
    pub fn begun(slab: u64, class: u8) -> Self
        ensures { result ≡ begun slab class }
    {
        HeapSlab {
            slab,
            class,
            handed: 0,
            count: 0,
            head: None,
        }
    }

    /// Whether the rest has an object.
    fn has_rest(&self) -> bool
        ensures { result ≡ ltb self.now.handed (class_objects self.now.class) }
    {
        self.handed < objects_of(self.class)
    }

    /// Whether there is an object, private or in the rest.
    pub fn has_object(&self) -> bool
        ensures { result ≡ has_object self.now }
    {
        self.head.is_some() || self.has_rest()
    }

    /// The object that is taken next: the newest private one, else the next of the rest.
    pub fn next_unit(&self) -> Option<u64>
        ensures { result ≡ next_unit self.now }
    {
        match self.head {
            Some(unit) => Some(unit),
            None => self.rest_unit(),
        }
    }

    /// The next object of the rest.
    pub fn rest_unit(&self) -> Option<u64>
        ensures { result ≡ rest_unit self.now }
    {
        if self.has_rest() {
            Some(unit_of(self.slab, self.class, self.handed))
        } else {
            None
        }
    }

    /// Takes the next object; `below` is the private object behind the newest one.
    pub fn take(&mut self, below: Option<u64>) -> Option<u64>
        ensures object { result ≡ next_unit self.old }
        ensures record { self.new ≡ after_take self.old below }
    {
        let object = self.next_unit();
        match self.head {
            Some(_) => {
                self.head = below;
                self.count = self.count.saturating_add(1);
            }
            None => {
                if self.has_rest() {
                    self.handed = self.handed.saturating_add(1);
                    self.count = self.count.saturating_add(1);
                }
            }
        }
        object
    }

    /// Takes an object back, which is the newest private one then.
    pub fn free(&mut self, unit: u64)
        ensures { self.new ≡ after_free self.old unit }
    {
        self.head = Some(unit);
        self.count = self.count.saturating_sub(1);
    }

    /// Joins so many objects that others gave back to the private list, of which `first` is the newest.
    pub fn join(&mut self, first: u64, joined: u64)
        ensures { self.new ≡ after_join self.old first joined }
    {
        self.head = Some(first);
        self.count = self.count.saturating_sub(joined);
    }

    /// Whether no object is held.
    pub fn is_unused(&self) -> bool
        ensures { result ≡ is_unused self.now }
    {
        self.count == 0
    }

    /// The header word, in which the record is left for whoever keeps the slab next.
    #[tactic(auto, unfolding(crate::specs::Records::to_header))]
    pub fn to_header(&self) -> u64
        ensures { result ≡ to_header self.now }
    {
        let head = head_field(self.slab, self.class, self.head);
        self.handed % 2048 + 2048 * (self.count % 2048) + 4194304 * (head % 2048)
    }

    /// The record of a slab of this class, by its header word.
    #[tactic(auto, unfolding(crate::specs::Records::of_header))]
    pub fn of_header(slab: u64, class: u8, word: u64) -> Self
        ensures { result ≡ of_header slab class word }
    {
        HeapSlab {
            slab,
            class,
            handed: word % 2048,
            count: word / 2048 % 2048,
            head: head_in(slab, class, word / 4194304 % 2048),
        }
    }
}
