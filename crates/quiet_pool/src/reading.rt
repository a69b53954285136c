//! The words and the seats of a quiet pool, as they are counted.
ghost use Rattle.std.specs.Prelude.{◌≡◌, IfOk, Some};
ghost use Rattle.word_totals.specs.Caching.{cache_numbers, cache_items_of};
ghost use Rattle.word_totals.specs.Counting.{totals_of};
ghost use Rattle.word_totals.specs.Leaking.{leaks_of};
ghost use Rattle.atomic_driver.specs.Rule.{IsTable, key_by};
ghost use Rattle.quiet_pool.specs.Reading.{CanRead, still_by};

use crate::noting::Standing;
use atomic_driver::{Place, Plan, Slot, Top, View};
use atomic_table::Play;
use cache_ages::CacheNumbers;
use heap_slabs::HeapSlab;
use part_model::Totals;
use pool_api::Heap;
use pool_types::{Leak, Raw, RegionRec};
use pool_words::{Key, Word};
use regions::Office;
use std::alloc::{AllocError, Global};
use std::marker::{Model, PhantomData};
use word_totals::{Amid, AtRest};

/// A load of a place that notes all words, which changes nothing.
struct Looks;

impl<R: Raw> Play<Slot<R>, View<Office<R>>> for Looks {
    ghost use Rattle.quiet_pool.specs.Stepping.{value_noted};

    ghost then = { λ s me found now. (now ≡ me) × (found ≡ value_noted me.0.note s.word) };
}

/// The pool that is read: its table, and the place that notes all words.
#[derive(Drop)]
struct Reader<'a, R: Raw, B: Standing<Office<R>>> {
    top: &'a Top<R>,
    place: Place<R>,
    key: Key,
    heaps: &'a [Heap<R>],
    of: PhantomData<B>,
}

impl<'a, R: Raw, B: Standing<Office<R>>> Model for Reader<'a, R, B> {
    ghost use Rattle.std.specs.Prelude.{◌≡◌};
    ghost use Rattle.word_totals.specs.Reading.{Still};
    ghost use Rattle.quiet_pool.specs.Reading.{CanRead, still_by};

    ghost Value = { Still };

    ghost view = { λ r. still_by r.key r.place.me r.heaps.now };

    ghost invariant = { λ r. (r.place.me ≡ B.me) × (r.place.table_id ≡ B.table)
        × CanRead r.top.now.table_id r.place.table_id r.top.now.key B.plan r.key r.place.me };
}

impl<'a, R: Raw, B: Standing<Office<R>>> Reader<'a, R, B> {
    /// Over this place.
    fn over(top: &'a Top<R>, place: Place<R>, key: &Key, heaps: &'a [Heap<R>]) -> Self
        requires can { CanRead top.now.table_id place.table_id top.now.key B.plan key.now place.me }
        requires me { (place.me ≡ B.me) × (place.table_id ≡ B.table) }
        ensures still { result ≡ still_by key.now B.me heaps.now }
    {
        Reader {
            top,
            place,
            key: *key,
            heaps,
            of: PhantomData,
        }
    }

    /// The place, which knows what it knew.
    fn into_place(self) -> Place<R>
        ensures { (result.me ≡ B.me) × (result.table_id ≡ B.table) }
    {
        let Reader { place, .. } = self;
        place
    }
}

impl<'a, R: Raw, B: Standing<Office<R>>> AtRest for Reader<'a, R, B> {
    ghost still = { λ r. r };

    fn key(&self) -> Key {
        self.key
    }

    #[tactic(auto, unfolding(word_totals::specs::Reading::load))]
    fn load(&mut self, word: Word) -> u64 {
        let index = word.index(&self.key);
        if index >= self.key.words() {
            return 0;
        }
        self.top.load::<Looks>(&mut self.place, index)
    }

    #[tactic(auto, unfolding(word_totals::specs::Reading::record_of))]
    fn record(&self, seat: u64, slab: u64) -> Option<HeapSlab> {
        match self.heaps.get(seat as usize) {
            Some(heap) => heap.local.heap.slabs.find(slab),
            None => None,
        }
    }

    #[tactic(auto, unfolding(word_totals::specs::Reading::amid_of))]
    fn amid(&self, seat: u64) -> Amid {
        match self.heaps.get(seat as usize) {
            Some(heap) => Amid::of(&heap.local),
            None => Amid::Nothing,
        }
    }
}

/// The totals, and the place again.
pub(crate) fn totals_as<R: Raw, B: Standing<Office<R>>>(
    top: &Top<R>,
    place: Place<R>,
    plan: &Plan,
    key: &Key,
    heaps: &[Heap<R>],
    records: &[RegionRec],
) -> (Totals, Place<R>)
    requires can { CanRead top.now.table_id place.table_id top.now.key plan.now key.now place.me }
    requires me { (place.me ≡ B.me) × (place.table_id ≡ B.table) × (plan.now ≡ B.plan) }
    ensures totals { result.0 ≡ totals_of (still_by key.now place.me heaps.now) records.now }
    ensures same { (result.1.me ≡ place.me) × (result.1.table_id ≡ place.table_id) }
{
    let _ = plan;
    let mut reader = Reader::<R, B>::over(top, place, key, heaps);
    let totals = word_totals::totals(&mut reader, records);
    (totals, reader.into_place())
}

/// The numbers of a cache bin, and the place again.
pub(crate) fn cache_as<R: Raw, B: Standing<Office<R>>>(
    top: &Top<R>,
    place: Place<R>,
    plan: &Plan,
    key: &Key,
    heaps: &[Heap<R>],
    granules: u32,
) -> (CacheNumbers, Place<R>)
    requires can { CanRead top.now.table_id place.table_id top.now.key plan.now key.now place.me }
    requires me { (place.me ≡ B.me) × (place.table_id ≡ B.table) × (plan.now ≡ B.plan) }
    ensures numbers { result.0 ≡ cache_numbers (still_by key.now place.me heaps.now) granules }
    ensures same { (result.1.me ≡ place.me) × (result.1.table_id ≡ place.table_id) }
{
    let _ = plan;
    let mut reader = Reader::<R, B>::over(top, place, key, heaps);
    let numbers = word_totals::cache(&mut reader, granules);
    (numbers, reader.into_place())
}

/// How many blocks a cache bin has, and the place again.
pub(crate) fn cache_items_as<R: Raw, B: Standing<Office<R>>>(
    top: &Top<R>,
    place: Place<R>,
    plan: &Plan,
    key: &Key,
    heaps: &[Heap<R>],
    granules: u32,
) -> (u64, Place<R>)
    requires can { CanRead top.now.table_id place.table_id top.now.key plan.now key.now place.me }
    requires me { (place.me ≡ B.me) × (place.table_id ≡ B.table) × (plan.now ≡ B.plan) }
    ensures items { result.0 ≡ cache_items_of (still_by key.now place.me heaps.now) granules }
    ensures same { (result.1.me ≡ place.me) × (result.1.table_id ≡ place.table_id) }
{
    let _ = plan;
    let mut reader = Reader::<R, B>::over(top, place, key, heaps);
    let items = word_totals::cache_items(&mut reader, granules);
    (items, reader.into_place())
}

/// The objects that are held, and the place again.
pub(crate) fn leaks_as<R: Raw, B: Standing<Office<R>>>(
    top: &Top<R>,
    place: Place<R>,
    plan: &Plan,
    key: &Key,
    heaps: &[Heap<R>],
    alloc: Global,
) -> (Result<Vec<Leak>, AllocError>, Place<R>)
    requires can { CanRead top.now.table_id place.table_id top.now.key plan.now key.now place.me }
    requires me { (place.me ≡ B.me) × (place.table_id ≡ B.table) × (plan.now ≡ B.plan) }
    ensures leaks { IfOk result.0 (λ leaks. leaks.items ≡ leaks_of (still_by key.now place.me heaps.now)) }
    ensures same { (result.1.me ≡ place.me) × (result.1.table_id ≡ place.table_id) }
{
    let _ = plan;
    let mut reader = Reader::<R, B>::over(top, place, key, heaps);
    let leaks = word_totals::leaks(&mut reader, alloc);
    (leaks, reader.into_place())
}
