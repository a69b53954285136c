//! The slabs, by where they lie, and what stands in them.
ghost use Rattle.std.specs.Prelude.{◌≡◌, ◌+◌, ◌*◌, ◌/◌, ◌^◌, ◌<◌, ◌≤◌, ◌||◌, ℕ, nat_lt, is_some, length, replicate, sum_by, Some, None, IfOk};
ghost use Rattle.size_classes.specs.Classes.{class_size, class_objects};
ghost use Rattle.plain_pool.specs.Held.{room_head, room_rest, room_private, room_object};
ghost use Rattle.size_classes.specs.Layout.{object_offset};
ghost use Rattle.plain_lists.specs.Whole.{object_of, place_at, grant_of};

use crate::marks::Mark;
use index_lists::IndexLists;
use pool_types::geometry::CLASSES;
use pool_types::{Grant, Leak, Place};
use size_classes::{Class, object_offset};
use slab_core::SlabRec;
use std::alloc::{AllocError, Global};

/// How many slabs the region has room for.
const ROOMS: u32 = 64;

/// The bytes of a slab.
const SLAB_BYTES: u32 = 16384;

/// The bytes of a unit. An object begins at a multiple of it.
const UNIT_BYTES: u32 = 8;

/// The slab in each room of the region, the rooms of each class, the newest slab first, and the marks of all units.
#[derive(Drop)]
pub struct Slabs {
    rooms: Vec<Option<SlabRec>>,
    classes: IndexLists,
    marks: Vec<Mark>,
}

/// The bytes of slabs, by what has them.
#[derive(Clone, Copy)]
pub struct SlabSums {
    pub head: u64,
    pub rest: u64,
    pub private: u64,
    pub object: u64,
}

/// An object that a slab gave.
#[derive(Clone, Copy)]
pub struct Given {
    pub class: Class,
    pub object: u32,
}

/// An object that is held.
#[derive(Clone, Copy)]
pub struct Held {
    pub room: u32,
    pub class: Class,
    pub object: u32,
}

/// The unit at which an object begins.
fn unit_of(room: u32, class: Class, object: u32) -> usize
    requires room { room < 64 }
    requires object { object < class_objects class }
    ensures exact { result ≡ 1024 * (2 * room) + object_offset class object / 8 }
    ensures below { result < 131072 }
{
    (room * (SLAB_BYTES / UNIT_BYTES) + object_offset(class, object) / UNIT_BYTES) as usize
}

/// The object of a class that begins so many bytes into its slab.
fn object_at(class: Class, within: u32) -> u32
    requires { (object : ℕ) × (object_of class within ≡ Some object) }
    ensures { Some result ≡ object_of class within }
{
    (SLAB_BYTES - within) / class.size() as u32 - 1
}

/// Whether the slab has an object to give.
fn has_free(slab: &SlabRec) -> bool
    ensures { result ≡ (is_some slab.now.head || nat_lt slab.now.handed (class_objects slab.now.class)) }
{
    slab.head.is_some() || slab.handed < slab.class.objects()
}

/// The bytes of a room's slab that are its head.
#[tactic(auto, using(crate::proofs::SumLemmas::head_fits))]
fn head_bytes(room: &Option<SlabRec>) -> u64
    ensures exact { result ≡ room_head room.now }
    ensures most { result ≤ 2 ^ 45 }
{
    match room {
        Some(slab) => u64::from(SLAB_BYTES) - u64::from(slab.class.objects()) * slab.class.size(),
        None => 0,
    }
}

/// The bytes of a room's slab that were never handed out.
fn rest_bytes(room: &Option<SlabRec>) -> u64
    ensures exact { result ≡ room_rest room.now }
    ensures most { result ≤ 2 ^ 45 }
{
    match room {
        Some(slab) => object_bytes(slab.class.objects().saturating_sub(slab.handed), slab.class),
        None => 0,
    }
}

/// The bytes of a room's slab that are private objects.
fn private_bytes(room: &Option<SlabRec>) -> u64
    ensures exact { result ≡ room_private room.now }
    ensures most { result ≤ 2 ^ 45 }
{
    match room {
        Some(slab) => object_bytes(slab.handed.saturating_sub(slab.count), slab.class),
        None => 0,
    }
}

/// The bytes of a room's slab that are held.
fn held_bytes(room: &Option<SlabRec>) -> u64
    ensures exact { result ≡ room_object room.now }
    ensures most { result ≤ 2 ^ 45 }
{
    match room {
        Some(slab) => object_bytes(slab.count, slab.class),
        None => 0,
    }
}

/// The bytes of so many objects of a class.
#[tactic(auto, using(crate::proofs::SumLemmas::few_bytes))]
fn object_bytes(count: u32, class: Class) -> u64
    ensures exact { result ≡ count * class_size class }
    ensures most { result ≤ 2 ^ 45 }
{
    u64::from(count) * class.size()
}

/// The sums over all these rooms.
fn sums_of(rooms: &[Option<SlabRec>]) -> SlabSums
    requires { length rooms.now ≤ 64 }
    ensures head { result.head ≡ sum_by room_head rooms.now }
    ensures rest { result.rest ≡ sum_by room_rest rooms.now }
    ensures private { result.private ≡ sum_by room_private rooms.now }
    ensures object { result.object ≡ sum_by room_object rooms.now }
{
    let mut sums = SlabSums {
        head: 0,
        rest: 0,
        private: 0,
        object: 0,
    };
    for room in rooms {
        sums.head += head_bytes(room);
        sums.rest += rest_bytes(room);
        sums.private += private_bytes(room);
        sums.object += held_bytes(room);
    }
    sums
}

/// Rooms without a slab.
fn empty_rooms(alloc: Global) -> Result<Vec<Option<SlabRec>>, AllocError>
    ensures { IfOk result (λ rooms. rooms.items ≡ replicate 64 None) }
{
    let mut rooms = Vec::with_capacity(alloc, ROOMS as usize)?;
    for _room in 0..ROOMS {
        rooms.push(None)?;
    }
    Ok(rooms)
}

/// An object of the slab in the room that is held under this number.
fn leak_of(room: u32, class: Class, object: u32, number: u64) -> Leak
    requires room { room < 64 }
    requires object { object < class_objects class }
    ensures { result ≡ record { place = place_at (2 * room) class object; usable = class_size class; grant = grant_of number } }
{
    Leak {
        place: place_of(room, class, object),
        usable: class.size(),
        grant: Grant { seat: 0, number },
    }
}

/// Where an object of the slab in the room begins.
pub fn place_of(room: u32, class: Class, object: u32) -> Place
    requires room { room < 64 }
    requires object { object < class_objects class }
    ensures { result ≡ place_at (2 * room) class object }
{
    Place {
        pool: 0,
        region: 0,
        offset: u64::from(SLAB_BYTES) * u64::from(room) + u64::from(object_offset(class, object)),
    }
}

impl Slabs {
    ghost use Rattle.std.specs.Prelude.{◌≡◌, ◌+◌, ◌*◌, ◌/◌, ◌<◌, ◌∷◌, [], ℕ, true, find, slice_get, List, Option, Some, None, Contains, IfOk};
    ghost use Rattle.slab_core.specs.Slabs.{IsBelowHead};
    ghost use Rattle.plain_lists.specs.Lists.{OwnSlab, begun, has_free, next_object, given, taken_back, is_unused, changed, without};
    ghost use Rattle.plain_lists.specs.Whole.{spot_in};
    ghost use Rattle.plain_lists.specs.Good.{IsHeld};
    ghost use Rattle.plain_pool.specs.Marks.{link_in};
    ghost use Rattle.std.specs.Prelude.{◌++◌, length, sum_by, OnOk};
    ghost use Rattle.plain_lists.specs.Held.{leak_at, slab_leaks};
    ghost use Rattle.plain_lists.specs.Held.{slab_head, slab_rest, slab_private, slab_object};
    ghost use Rattle.plain_pool.specs.Held.{AreSlabsApart, number_held};
    ghost use Rattle.plain_pool.specs.Slabs.{AreSlabs, ArePlaced, AreKept, IsIn, IsUnheld, slab_in, record_in, record_of, mark_at, unit_at, room_of, held_of};

    /// No slabs.
    pub fn new(alloc: Global) -> Result<Self, AllocError>
        ensures { IfOk result (λ arrays. AreSlabs arrays []) }
    {
        Ok(Slabs {
            rooms: empty_rooms(alloc)?,
            classes: IndexLists::new(alloc, CLASSES, ROOMS)?,
            marks: vec![in alloc; Mark::Blank; (ROOMS * (SLAB_BYTES / UNIT_BYTES)) as usize]?,
        })
    }

    /// The room of the first slab of the class that has an object to give.
    pub fn open_room(&self, class: Class) -> Option<u32>
        requires { (slabs : List OwnSlab) × AreSlabs self.now slabs × AreKept slabs }
        ensures { (slabs : List OwnSlab) → AreSlabs self.now slabs → AreKept slabs → result ≡ room_of (find (has_free class) slabs) }
    {
        let rooms = self.classes.indices();
        let mut next = self.classes.first(usize::from(class.index()));
        for _place in 0..rooms {
            let Some(room) = next else {
                return None;
            };
            if self.has_free_at(class, room) {
                return Some(room);
            }
            next = self.classes.following(room);
        }
        None
    }

    /// Whether the slab in the room, which is one of the class, has an object to give.
    fn has_free_at(&self, class: Class, room: u32) -> bool
        requires { (slabs : List OwnSlab) × (slab : OwnSlab) × AreSlabs self.now slabs × AreKept slabs × IsIn room slab slabs × (slab.class ≡ class) }
        ensures { (slabs : List OwnSlab) (slab : OwnSlab) → AreSlabs self.now slabs → AreKept slabs → IsIn room slab slabs → slab.class ≡ class →
            result ≡ has_free class slab }
    {
        match &self.rooms[room as usize] {
            Some(slab) => has_free(slab),
            None => false,
        }
    }

    /// Begins a slab in a room that has none. It is the newest of its class.
    pub fn begin(&mut self, room: u32, class: Class)
        requires room { room < 64 }
        requires slabs { (slabs : List OwnSlab) × AreSlabs self.old slabs × (slab_in room slabs ≡ None) × ArePlaced slabs }
        ensures { (slabs : List OwnSlab) → AreSlabs self.old slabs → slab_in room slabs ≡ None → ArePlaced slabs →
            AreSlabs self.new (begun (2 * room) class ∷ slabs) }
    {
        self.rooms[room as usize] = Some(SlabRec::begun(class, 2 * room));
        self.classes.push_front(usize::from(class.index()), room);
    }

    /// The private object after the newest one of a slab.
    fn below_head(&self, room: u32, slab: &SlabRec) -> Option<u32>
        requires { (slabs : List OwnSlab) × (own : OwnSlab) × AreSlabs self.now slabs × AreKept slabs × IsIn room own slabs × (slab.now ≡ record_of own) }
        ensures { (slabs : List OwnSlab) (own : OwnSlab) → AreSlabs self.now slabs → AreKept slabs → IsIn room own slabs → slab.now ≡ record_of own →
            result ≡ slice_get own.private 1 }
    {
        let head = slab.head?;
        self.marks[unit_of(room, slab.class, head)].link()
    }

    /// The slab in the room gives its next object, under this number.
    pub fn give(&mut self, room: u32, number: u64) -> Given
        requires { (slabs : List OwnSlab) × (slab : OwnSlab) × AreSlabs self.old slabs × AreKept slabs × IsIn room slab slabs × (has_free slab.class slab ≡ true) }
        ensures given { (slabs : List OwnSlab) (slab : OwnSlab) → AreSlabs self.old slabs → AreKept slabs → IsIn room slab slabs → has_free slab.class slab ≡ true →
            result ≡ record { class = slab.class; object = next_object slab } }
        ensures slabs { (slabs : List OwnSlab) (slab : OwnSlab) → AreSlabs self.old slabs → AreKept slabs → IsIn room slab slabs → has_free slab.class slab ≡ true →
            AreSlabs self.new (changed (given slab number) slabs) }
    {
        let Some(mut slab) = self.rooms[room as usize] else {
            unreachable!()
        };
        let below = self.below_head(room, &slab);
        let Some(object) = slab.take(below) else {
            unreachable!()
        };
        let class = slab.class;
        self.rooms[room as usize] = Some(slab);
        self.marks[unit_of(room, class, object)] = Mark::Granted(number);
        Given { class, object }
    }

    /// The object that is held and begins so many bytes into the region, where one does.
    pub fn held_at(&self, offset: u32) -> Option<Held>
        requires offset { offset < 1048576 }
        requires unit { offset ≡ 8 * (offset / 8) }
        requires slabs { (slabs : List OwnSlab) × AreSlabs self.now slabs × ArePlaced slabs }
        ensures { (slabs : List OwnSlab) → AreSlabs self.now slabs → ArePlaced slabs → result ≡ held_of (spot_in offset (slab_in (offset / 16384) slabs)) }
    {
        self.marks[(offset / UNIT_BYTES) as usize].number()?;
        let room = offset / SLAB_BYTES;
        let Some(slab) = &self.rooms[room as usize] else {
            unreachable!()
        };
        let class = slab.class;
        let object = object_at(class, offset % SLAB_BYTES);
        Some(Held {
            room,
            class,
            object,
        })
    }

    /// Takes an object back that is held. The answer is whether none of its slab is held any more.
    pub fn take_back(&mut self, room: u32, object: u32) -> bool
        requires { (slabs : List OwnSlab) × (slab : OwnSlab) × (number : ℕ) × AreSlabs self.old slabs × AreKept slabs × IsIn room slab slabs × IsHeld slab object number }
        ensures unused { (slabs : List OwnSlab) (slab : OwnSlab) (number : ℕ) → AreSlabs self.old slabs → AreKept slabs → IsIn room slab slabs → IsHeld slab object number →
            result ≡ is_unused (taken_back slab object) }
        ensures slabs { (slabs : List OwnSlab) (slab : OwnSlab) (number : ℕ) → AreSlabs self.old slabs → AreKept slabs → IsIn room slab slabs → IsHeld slab object number →
            AreSlabs self.new (changed (taken_back slab object) slabs) }
    {
        let Some(mut slab) = self.rooms[room as usize] else {
            unreachable!()
        };
        let head = slab.head;
        slab.free(object);
        let is_unused = slab.is_empty();
        let class = slab.class;
        self.rooms[room as usize] = Some(slab);
        self.marks[unit_of(room, class, object)] = Mark::Link(head);
        is_unused
    }

    /// A slab of which no object is held leaves its room and its class.
    pub fn leave(&mut self, room: u32)
        requires { (slabs : List OwnSlab) × (slab : OwnSlab) × AreSlabs self.old slabs × ArePlaced slabs × IsIn room slab slabs × IsUnheld slab }
        ensures { (slabs : List OwnSlab) (slab : OwnSlab) → AreSlabs self.old slabs → ArePlaced slabs → IsIn room slab slabs → IsUnheld slab →
            AreSlabs self.new (without slab.index slabs) }
    {
        let Some(slab) = &self.rooms[room as usize] else {
            unreachable!()
        };
        self.classes.remove(usize::from(slab.class.index()), room);
        self.rooms[room as usize] = None;
    }

    /// The bytes of all slabs.
    pub fn sums(&self) -> SlabSums
        requires { (slabs : List OwnSlab) × AreSlabs self.now slabs × AreKept slabs × AreSlabsApart slabs }
        ensures head { (slabs : List OwnSlab) → AreSlabs self.now slabs → AreKept slabs → AreSlabsApart slabs → result.head ≡ sum_by slab_head slabs }
        ensures rest { (slabs : List OwnSlab) → AreSlabs self.now slabs → AreKept slabs → AreSlabsApart slabs → result.rest ≡ sum_by slab_rest slabs }
        ensures private { (slabs : List OwnSlab) → AreSlabs self.now slabs → AreKept slabs → AreSlabsApart slabs → result.private ≡ sum_by slab_private slabs }
        ensures object { (slabs : List OwnSlab) → AreSlabs self.now slabs → AreKept slabs → AreSlabsApart slabs → result.object ≡ sum_by slab_object slabs }
    {
        sums_of(self.rooms.as_slice())
    }

    /// Adds the object of this number in the slab in the room, where it is held.
    fn add_leak(&self, room: u32, object: u32, leaks: &mut Vec<Leak>) -> Result<(), AllocError>
        requires { (slabs : List OwnSlab) × (slab : OwnSlab) × AreSlabs self.now slabs × AreKept slabs × IsIn room slab slabs × (object < length slab.objects) }
        ensures { OnOk result ((slabs : List OwnSlab) (slab : OwnSlab) → AreSlabs self.now slabs → AreKept slabs → IsIn room slab slabs → object < length slab.objects →
            leaks.new.items ≡ leaks.old.items ++ leak_at slab object (number_held (slice_get slab.objects object))) }
    {
        let Some(slab) = &self.rooms[room as usize] else {
            unreachable!()
        };
        let class = slab.class;
        let Some(number) = self.marks[unit_of(room, class, object)].number() else {
            return Ok(());
        };
        leaks.push(leak_of(room, class, object, number))?;
        Ok(())
    }

    /// Adds the objects of the slab in the room that are held, by offset.
    pub fn add_leaks(&self, room: u32, leaks: &mut Vec<Leak>) -> Result<(), AllocError>
        requires room { room < 64 }
        requires slabs { (slabs : List OwnSlab) × AreSlabs self.now slabs × AreKept slabs }
        ensures { OnOk result ((slabs : List OwnSlab) → AreSlabs self.now slabs → AreKept slabs → leaks.new.items ≡ leaks.old.items ++ slab_leaks (slab_in room slabs)) }
    {
        let Some(slab) = &self.rooms[room as usize] else {
            return Ok(());
        };
        let handed = slab.handed;
        for done in 0..handed {
            self.add_leak(room, handed - 1 - done, leaks)?;
        }
        Ok(())
    }
}
