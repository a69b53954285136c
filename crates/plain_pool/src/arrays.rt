//! The arrays of a fixed pool, and its calls.
//!
//! A malloc takes from the first slab of its class that has an object, as in oneTBB's
//! `src/tbbmalloc/frontend.cpp`, and a slab of which no object is held any more goes to the slab cache. When the slab
//! cache gives slabs to the bins is this project's own.
ghost use Rattle.std.specs.Prelude.{◌≡◌, ◌*◌, ◌<◌, ◌==◌, ◌&&◌, ◌%◌, nat_lt};
ghost use Rattle.size_classes.specs.Classes.{class_objects};
ghost use Rattle.plain_lists.specs.Whole.{no_fit, got};

use crate::bins::Bins;
use crate::region::OneRegion;
use crate::slabs::{Held, Slabs, place_of};
use arrayvec::ArrayVec;
use part_model::Totals;
use pool_types::{Answer, Found, Grant, Leak, Looks, NullCause, Place, Request};
use size_classes::{Class, class_of};
use std::alloc::{AllocError, Global};

/// How many slabs the slab cache has when it is trimmed.
const MOST_STORED: usize = 33;

/// How many slabs go to the backend then.
const TRIMMED: usize = 25;

/// The bytes of the region.
const REGION_BYTES: u64 = 1048576;

/// How many slabs the region has room for.
const ROOMS: u32 = 64;

/// The bytes of a slab.
const SLAB_BYTES: u64 = 16384;

/// What a fixed pool is made of: its region, its slabs, the blocks in its bins, the first granules of the slabs in its slab
/// cache, the oldest first, and how many objects were granted. Each call keeps them in step.
#[derive(Drop)]
pub struct PoolArrays {
    region: OneRegion,
    slabs: Slabs,
    bins: Bins,
    stored: ArrayVec<u32, MOST_STORED>,
    granted: u64,
}

/// The answer that there is no room for a slab.
fn no_room() -> Answer
    ensures { result ≡ no_fit }
{
    Answer::Null(NullCause::NoFit(Looks {
        first: 1,
        last: 511,
        seen: 0,
    }))
}

/// The answer that an object was got.
fn got_object(room: u32, class: Class, object: u32, number: u64) -> Answer
    requires room { room < 64 }
    requires object { object < class_objects class }
    ensures { result ≡ got (2 * room) class object number }
{
    Answer::Got {
        place: place_of(room, class, object),
        usable: class.size(),
        grant: Grant { seat: 0, number },
    }
}

impl PoolArrays {
    ghost use Rattle.std.specs.Prelude.{◌≡◌, ◌+◌, ◌-◌, ◌*◌, ◌^◌, ◌<◌, ◌≤◌, ◌++◌, ◌∷◌, [], true, length, find, Some, None, IfOk};
    ghost use Rattle.pool_types.specs.declared.values.Place.{Place};
    ghost use Rattle.pool_types.specs.declared.values.Request.TheVariants.{Malloc, Free, Msize, Identify};
    ghost use Rattle.plain_lists.specs.Lists.{Lists, OwnSlab, no_lists, has_free};
    ghost use Rattle.plain_lists.specs.Backend.{first_fit};
    ghost use Rattle.plain_lists.specs.Whole.{Spot, IsServed, whole, gives, begins_in, room_in, block_room, region_room, spot_at, missing, frees, trimmed};
    ghost use Rattle.plain_lists.specs.Held.{totals_at, leaks_at};
    ghost use Rattle.plain_lists.specs.Good.{AreGood};
    ghost use Rattle.plain_pool.specs.Slabs.{AreKept, IsIn, held_of};
    ghost use Rattle.plain_pool.specs.Pool.{Has, Stands, IsRoomOf, AreStored};

    /// A pool of which nothing was asked. All memory of the pool is taken here.
    pub fn new(alloc: Global) -> Result<Self, AllocError>
        ensures { IfOk result (λ pool. Stands pool no_lists) }
    {
        Ok(PoolArrays {
            region: OneRegion::unasked(alloc),
            slabs: Slabs::new(alloc)?,
            bins: Bins::new(alloc)?,
            stored: ArrayVec::new(),
            granted: 0,
        })
    }

    /// How many objects were granted.
    pub fn granted(&self) -> u64
        ensures { result ≡ self.now.granted }
    {
        self.granted
    }

    /// A whole call. It takes no memory.
    pub fn call(&mut self, request: Request) -> Answer
        requires stands { (lists : Lists) × Stands self.old lists × (lists.granted < 2 ^ 55 - 1) }
        requires served { IsServed request }
        ensures lists { (lists : Lists) → Stands self.old lists → Stands self.new (whole lists request).lists }
        ensures answer { (lists : Lists) → Stands self.old lists → result ≡ (whole lists request).answer }
    {
        match request {
            Request::Malloc { size } => self.malloc(size),
            Request::Free { place } => self.free(place),
            Request::Msize { place } => self.msize(place),
            Request::Identify { place } => self.identify(place),
            _ => unreachable!(),
        }
    }

    /// How many bytes each kind of holder has.
    pub fn totals(&self) -> Totals
        requires { (lists : Lists) × Stands self.now lists }
        ensures { (lists : Lists) → Stands self.now lists → result ≡ totals_at lists }
    {
        let Some(region) = self.region.given() else {
            return Totals::default();
        };
        let sums = self.slabs.sums();
        Totals {
            regions: 1,
            bytes: region.bytes,
            waste: 0,
            head: sums.head,
            rest: sums.rest,
            private: sums.private,
            public: 0,
            object: sums.object,
            large_head: 0,
            slab_cache: SLAB_BYTES * self.stored.len() as u64,
            cached: 0,
            bin: self.bins.bytes(),
            queue: 0,
            hand: 0,
        }
    }

    /// All objects that are held, by offset.
    pub fn leaks(&self, alloc: Global) -> Result<Vec<Leak>, AllocError>
        requires { (lists : Lists) × Stands self.now lists }
        ensures { IfOk result (λ leaks. (lists : Lists) → Stands self.now lists → leaks.items ≡ leaks_at lists) }
    {
        let mut leaks = Vec::new(alloc);
        for room in 0..ROOMS {
            self.slabs.add_leaks(room, &mut leaks)?;
        }
        Ok(leaks)
    }

    /// A malloc of so many bytes, of which a class has objects.
    fn malloc(&mut self, size: u64) -> Answer
        requires stands { (lists : Lists) × Stands self.old lists × (lists.granted < 2 ^ 55 - 1) }
        requires small { size ≤ 8128 }
        ensures lists { (lists : Lists) → Stands self.old lists → Has self.new (whole lists (Malloc size)).lists }
        ensures answer { (lists : Lists) → Stands self.old lists → result ≡ (whole lists (Malloc size)).answer }
    {
        let Some(class) = class_of(size) else {
            unreachable!()
        };
        match self.slabs.open_room(class) {
            Some(room) => self.give(room),
            None => self.begin_slab(class),
        }
    }

    /// The slab in the room gives its next object.
    fn give(&mut self, room: u32) -> Answer
        requires { (lists : Lists) × (slab : OwnSlab) × Has self.old lists × AreKept lists.slabs × IsIn room slab lists.slabs × (has_free slab.class slab ≡ true)
            × (lists.granted < 2 ^ 55 - 1) }
        ensures lists { (lists : Lists) (slab : OwnSlab) → Has self.old lists → AreKept lists.slabs → IsIn room slab lists.slabs → has_free slab.class slab ≡ true →
            Has self.new (gives lists slab).lists }
        ensures answer { (lists : Lists) (slab : OwnSlab) → Has self.old lists → AreKept lists.slabs → IsIn room slab lists.slabs → has_free slab.class slab ≡ true →
            result ≡ (gives lists slab).answer }
    {
        let number = self.granted + 1;
        let given = self.slabs.give(room, number);
        self.granted = number;
        got_object(room, given.class, given.object, number)
    }

    /// Begins a slab where there is room, which gives its first object.
    fn begin_slab(&mut self, class: Class) -> Answer
        requires stands { (lists : Lists) × Stands self.old lists × (lists.granted < 2 ^ 55 - 1) }
        requires class { class < 26 }
        ensures lists { (lists : Lists) → Stands self.old lists → Has self.new (begins_in lists class (room_in lists)).lists }
        ensures answer { (lists : Lists) → Stands self.old lists → result ≡ (begins_in lists class (room_in lists)).answer }
    {
        let Some(index) = self.take_room() else {
            return no_room();
        };
        self.slabs.begin(index / 2, class);
        self.give(index / 2)
    }

    /// Room for a slab: the newest of the slab cache, a block, or a region.
    fn take_room(&mut self) -> Option<u32>
        requires { (lists : Lists) × Stands self.old lists }
        ensures { (lists : Lists) → Stands self.old lists → IsRoomOf self.new lists (room_in lists) result }
    {
        match self.stored.pop() {
            Some(index) => Some(index),
            None => self.cut_room(),
        }
    }

    /// Room for a slab in a block, or in a region.
    fn cut_room(&mut self) -> Option<u32>
        requires { (lists : Lists) × Stands self.old lists }
        ensures { (lists : Lists) → Stands self.old lists → IsRoomOf self.new lists (block_room lists (first_fit lists.blocks)) result }
    {
        match self.bins.cut() {
            Some(index) => Some(index),
            None => self.first_room(),
        }
    }

    /// Room for a slab in the region, where it was not asked for yet.
    fn first_room(&mut self) -> Option<u32>
        requires { (lists : Lists) × Stands self.old lists }
        ensures { (lists : Lists) → Stands self.old lists → IsRoomOf self.new lists (region_room lists lists.region) result }
    {
        if self.region.given().is_some() {
            return None;
        }
        self.region.obtain();
        self.bins.fill();
        Some(0)
    }

    /// A free of the object that begins at the place.
    fn free(&mut self, place: Option<Place>) -> Answer
        requires { (lists : Lists) × Stands self.old lists }
        ensures lists { (lists : Lists) → Stands self.old lists → Has self.new (whole lists (Free place)).lists }
        ensures answer { (lists : Lists) → Stands self.old lists → result ≡ (whole lists (Free place)).answer }
    {
        let Some(start) = place else {
            return Answer::False;
        };
        match self.held_at(start) {
            Some(held) => {
                self.free_held(held);
                Answer::Freed
            }
            None => Answer::NotHeld(self.missing(start)),
        }
    }

    /// The usable bytes of the object that begins at the place.
    fn msize(&self, place: Option<Place>) -> Answer
        requires { (lists : Lists) × Stands self.now lists }
        ensures { (lists : Lists) → Stands self.now lists → result ≡ (whole lists (Msize place)).answer }
    {
        let Some(place) = place else {
            return Answer::Size(0);
        };
        match self.held_at(place) {
            Some(held) => Answer::Size(held.class.size()),
            None => Answer::NotHeld(self.missing(place)),
        }
    }

    /// The pool of the object that begins at the place.
    fn identify(&self, place: Option<Place>) -> Answer
        requires { (lists : Lists) × Stands self.now lists }
        ensures { (lists : Lists) → Stands self.now lists → result ≡ (whole lists (Identify place)).answer }
    {
        let Some(place) = place else {
            return Answer::NoPool;
        };
        match self.held_at(place) {
            Some(_) => Answer::Pool(0),
            None => Answer::NoPool,
        }
    }

    /// The object that is held and begins at the place, where one does.
    fn held_at(&self, place: Place) -> Option<Held>
        requires { (lists : Lists) × Stands self.now lists }
        ensures { (lists : Lists) → Stands self.now lists → result ≡ held_of (spot_at lists place) }
    {
        if !is_unit(&place) {
            return None;
        }
        self.slabs.held_at(place.offset as u32)
    }

    /// What is found where no object that is held begins.
    fn missing(&self, place: Place) -> Found
        ensures { (lists : Lists) → Stands self.now lists → result ≡ missing lists place }
    {
        if is_unit(&place) && self.region.given().is_some() {
            Found::NoGrant
        } else {
            Found::NoPlace
        }
    }

    /// Takes an object back that is held.
    fn free_held(&mut self, held: Held)
        requires { (lists : Lists) × (place : Place) × (spot : Spot) × Stands self.old lists × (spot_at lists place ≡ Some spot) × (held_of (Some spot) ≡ Some held) }
        ensures { (lists : Lists) (place : Place) (spot : Spot) → Stands self.old lists → spot_at lists place ≡ Some spot → held_of (Some spot) ≡ Some held →
            Has self.new (frees lists spot) }
    {
        if self.slabs.take_back(held.room, held.object) {
            self.slabs.leave(held.room);
            self.store(2 * held.room);
        }
    }

    /// Puts a slab into the slab cache, which is trimmed where it is full.
    fn store(&mut self, index: u32)
        requires { (lists : Lists) × Has self.old lists × AreStored (lists.stored ++ index ∷ []) lists.blocks × (length lists.stored ≤ 32) }
        ensures { (lists : Lists) → Has self.old lists → AreStored (lists.stored ++ index ∷ []) lists.blocks → length lists.stored ≤ 32 →
            Has self.new (trimmed (record lists { stored = lists.stored ++ index ∷ [] })) }
    {
        self.stored.push(index);
        if self.stored.is_full() {
            self.trim();
        }
    }

    /// The oldest slabs of the slab cache go to the backend, the oldest first.
    fn trim(&mut self)
        requires { (lists : Lists) × Has self.old lists × AreStored lists.stored lists.blocks × (length lists.stored ≡ 33) }
        ensures { (lists : Lists) → Has self.old lists → AreStored lists.stored lists.blocks → length lists.stored ≡ 33 → Has self.new (trimmed lists) }
    {
        for _ in 0..TRIMMED {
            let index = self.stored.remove(0);
            self.bins.put(index);
        }
    }
}

/// Whether an object could begin at the place, were there a region.
fn is_unit(place: &Place) -> bool
    ensures { result ≡ ((place.now.pool == 0) && ((place.now.region == 0) && (nat_lt place.now.offset 1048576 && (place.now.offset % 8 == 0)))) }
{
    place.pool == 0
        && place.region == 0
        && place.offset < REGION_BYTES
        && place.offset.is_multiple_of(8)
}
