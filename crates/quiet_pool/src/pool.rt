//! A quiet pool, and its calls.
ghost use Rattle.std.specs.Prelude.{◌≡◌, ◌≤◌, ◌<◌, [], length, IfOk, IfErr, IfNone, IfSome};
ghost use Rattle.step_core.specs.Machines.{lowest_in_call};
ghost use Rattle.atomic_driver.specs.Rule.{IsTable, key_by, plain};
ghost use Rattle.atomic_driver.specs.Seating.{IsFrom, IsPool};
ghost use Rattle.quiet_pool.specs.Calls.{AreHeaps, AreHeapsAt, HavePlaces, IsAllIdle, IsCause, IsMadeQuiet, entries_of};
ghost use Rattle.quiet_pool.specs.Held.{locals_of, plans_of};
ghost use Rattle.quiet_pool.specs.Quiet.{AreIdle};

use crate::moves::{hands_on, take_place, takes_in};
use crate::noting::{forget, note};
use crate::reading::{cache_as, cache_items_as, leaks_as, totals_as};
use crate::refusals::{QuietCause, QuietRefused};
use crate::resets::resets;
use arrayvec::ArrayVec;
use atomic_driver::{Place, Plan, Ruled, Shared, Slot, Top, View};
use atomic_table::Table;
use cache_ages::CacheNumbers;
use part_model::Totals;
use pool_api::{Heap, Pool};
use pool_types::limits::MOST_REGIONS;
use pool_types::{Destroyed, Leak, Raw, RegionRec};
use pool_words::Key;
use regions::Office;
use std::alloc::{AllocError, Global};
use std::marker::{Brand, Model};
use std::sync::Wait;
use step_core::ends;

/// A pool while no thread steps. Its one place at the table knows each word, and the office is in hand.
#[derive(Drop)]
pub struct QuietPool<R: Raw> {
    board: Table<Slot<R>, View<Office<R>>, Plan, Ruled, Global>,
    place: Place<R>,
    heaps: Vec<Heap<R>>,
    office: Office<R>,
    plan: Plan,
    key: Key,
}

impl<R: Raw> Model for QuietPool<R> {
    ghost use Rattle.quiet_pool.specs.Held.{IsHeld, locals_of, quiet_of};
    ghost use Rattle.quiet_pool.specs.Quiet.{Quiet};

    ghost Value = { Quiet R };

    ghost view = { λ q. quiet_of q.plan q.office (locals_of q.heaps.items) q.place.me };

    ghost invariant = { λ q. IsHeld R.out R.faults R.got R.passed q.board.shared.table_id q.place.table_id
        q.board.shared.key q.plan q.key q.place.me q.heaps.items q.office };
}

/// The lowest heap that is in a call.
fn lowest_in_call<R: Raw>(heaps: &[Heap<R>]) -> Option<u8>
    ensures { result ≡ lowest_in_call (locals_of heaps.now) }
{
    for (seat, heap) in heaps.iter().enumerate() {
        if heap.in_call() {
            return Some((seat % 256) as u8);
        }
    }
    None
}

/// Why the pool is not made quiet with these heaps.
fn cause_of<R: Raw>(pool: &Pool<R>, heaps: &[Heap<R>]) -> Option<QuietCause>
    requires { length heaps.now ≤ (key_by pool.now.plan).seats }
    ensures none { IfNone result (IsAllIdle pool.now heaps.now) }
    ensures cause { IfSome result (IsCause pool.now heaps.now) }
{
    let made = pool.seats();
    if heaps.len() < usize::from(made) {
        return Some(QuietCause::MissingHeaps {
            given: heaps.len() as u32,
            made: u32::from(made),
        });
    }
    match lowest_in_call(heaps) {
        Some(seat) => Some(QuietCause::CallBegun { seat }),
        None => None,
    }
}

/// Each heap's place is taken in, from the first.
fn gather<R: Raw>(top: &Top<R>, place: &mut Place<R>, heaps: &mut [Heap<R>], plan: &Plan, key: &Key)
    requires table { (place.old.table_id ≡ top.now.table_id) × (top.now.key ≡ plan.now) }
    requires sizes { IsTable top.now.table_id key.now }
    requires key { key.now ≡ key_by plan.now }
    requires place { place.old.me ≡ (plain [], []) }
    requires heaps { AreHeapsAt R.out R.faults R.got R.passed top.now.table_id plan.now heaps.old }
    requires idle { AreIdle (locals_of heaps.old) }
    ensures table { place.new.table_id ≡ place.old.table_id }
    ensures place { place.new.me ≡ (plain (entries_of heaps.old), []) }
    ensures locals { locals_of heaps.new ≡ locals_of heaps.old }
    ensures plans { plans_of heaps.new ≡ plans_of heaps.old }
{
    for index in 0..heaps.len() {
        let heap = &mut heaps[index];
        takes_in(top, place, heap, plan, key, index);
    }
}

/// Each heap gets its place, from the first.
fn scatter<R: Raw>(
    top: &Top<R>,
    place: &mut Place<R>,
    heaps: &mut [Heap<R>],
    plan: &Plan,
    key: &Key,
)
    requires table { (place.old.table_id ≡ top.now.table_id) × (top.now.key ≡ plan.now) }
    requires sizes { IsTable top.now.table_id key.now }
    requires key { key.now ≡ key_by plan.now }
    requires place { place.old.me ≡ (plain place.old.me.0.entries, []) }
    requires count { length place.old.me.0.entries ≡ length heaps.old }
    requires row { IsFrom 0 place.old.me.0.entries }
    ensures table { place.new.table_id ≡ place.old.table_id }
    ensures place { place.new.me ≡ (plain [], []) }
    ensures places { HavePlaces place.old.table_id key.now place.old.me.0.entries heaps.new }
    ensures locals { locals_of heaps.new ≡ locals_of heaps.old }
    ensures plans { plans_of heaps.new ≡ plans_of heaps.old }
{
    for index in 0..heaps.len() {
        let heap = &mut heaps[index];
        hands_on(top, place, heap, plan, key);
    }
}

/// Makes a pool quiet, with its heaps, each at its number. No word changes, no callback is called, and no memory is
/// taken. It is refused where fewer heaps are given than were made, and else where a seat is in a call, with the
/// lowest such seat; then all comes back as it was.
pub fn quiet<R: Raw>(pool: Pool<R>, heaps: Vec<Heap<R>>) -> Result<QuietPool<R>, QuietRefused<R>>
    requires pool { IsPool R.out R.faults R.got R.passed pool }
    requires heaps { AreHeaps R.out R.faults R.got R.passed pool heaps.items }
    ensures quiet { IfOk result (IsMadeQuiet R.out R.faults R.got R.passed pool heaps.items) }
    ensures cause { IfErr result (λ refused. IsCause pool heaps.items refused.cause) }
    ensures back { IfErr result (λ refused. (refused.pool ≡ pool) × (refused.heaps.items ≡ heaps.items)) }
{
    if let Some(cause) = cause_of(&pool, heaps.as_slice()) {
        return Err(QuietRefused { cause, pool, heaps });
    }
    let Shared {
        board,
        spare,
        plan,
        key,
    } = pool;
    let mut place = spare;
    let mut heaps = heaps;
    gather(&board.shared, &mut place, heaps.as_mut_slice(), &plan, &key);
    let office = note(&board.shared, &mut place, &plan, &key);
    Ok(QuietPool {
        board,
        place,
        heaps,
        office,
        plan,
        key,
    })
}

/// The records of the regions out.
fn records_of<R: Raw>(office: &Office<R>) -> ArrayVec<RegionRec, MOST_REGIONS>
    ensures { result.items ≡ office.now.records }
{
    let mut records = ArrayVec::new();
    for one in office.regions() {
        records.push(*one);
    }
    records
}

impl<R: Raw> QuietPool<R> {
    ghost use Rattle.step_core.specs.Endings.{EndsBy};
    ghost use Rattle.word_totals.specs.Caching.{cache_numbers, cache_items_of};
    ghost use Rattle.word_totals.specs.Counting.{totals_of};
    ghost use Rattle.word_totals.specs.Leaking.{leaks_of};
    ghost use Rattle.quiet_pool.specs.Calls.{IsResumed};
    ghost use Rattle.quiet_pool.specs.Quiet.{IsState, still_of};
    ghost use Rattle.quiet_pool.specs.Resets.{AreResting, IsReset};

    /// What the pool was made with.
    pub fn plan(&self) -> &Plan
        ensures { result.now ≡ self.now.plan }
    {
        &self.plan
    }

    /// How many bytes each kind of holder has, counted from the words and the seats. No memory is taken.
    pub fn totals(&mut self) -> Totals
        ensures exact { result ≡ totals_of (still_of self.old) self.old.desk.records }
        ensures same { self.new ≡ self.old }
    {
        let board = &self.board;
        let place = take_place(&board.shared, &mut self.place, &self.plan, &self.key);
        let records = records_of(&self.office);
        let (totals, place) = totals_as::<R, Brand>(
            &board.shared,
            place,
            &self.plan,
            &self.key,
            self.heaps.as_slice(),
            records.as_slice(),
        );
        self.place = place;
        totals
    }

    /// The numbers of the cache bin for blocks of so many granules. All are 0 where there is no such bin. No memory is
    /// taken.
    pub fn cache(&mut self, granules: u32) -> CacheNumbers
        ensures exact { result ≡ cache_numbers (still_of self.old) granules }
        ensures same { self.new ≡ self.old }
    {
        let board = &self.board;
        let place = take_place(&board.shared, &mut self.place, &self.plan, &self.key);
        let (numbers, place) = cache_as::<R, Brand>(
            &board.shared,
            place,
            &self.plan,
            &self.key,
            self.heaps.as_slice(),
            granules,
        );
        self.place = place;
        numbers
    }

    /// How many blocks are in the cache bin for blocks of so many granules, as its own word says. No memory is taken.
    pub fn cache_items(&mut self, granules: u32) -> u64
        ensures exact { result ≡ cache_items_of (still_of self.old) granules }
        ensures same { self.new ≡ self.old }
    {
        let board = &self.board;
        let place = take_place(&board.shared, &mut self.place, &self.plan, &self.key);
        let (items, place) = cache_items_as::<R, Brand>(
            &board.shared,
            place,
            &self.plan,
            &self.key,
            self.heaps.as_slice(),
            granules,
        );
        self.place = place;
        items
    }

    /// The objects that are held, by region and offset. The error is a want of memory.
    pub fn leaks(&mut self, alloc: Global) -> Result<Vec<Leak>, AllocError>
        ensures exact { IfOk result (λ leaks. leaks.items ≡ leaks_of (still_of self.old)) }
        ensures same { self.new ≡ self.old }
    {
        let board = &self.board;
        let place = take_place(&board.shared, &mut self.place, &self.plan, &self.key);
        let (leaks, place) = leaks_as::<R, Brand>(
            &board.shared,
            place,
            &self.plan,
            &self.key,
            self.heaps.as_slice(),
            alloc,
        );
        self.place = place;
        leaks
    }

    /// Resets the pool: each seat gives up what its heap keeps, and then all else goes to the bins, as seat 0. No
    /// region goes back, and no memory is taken. Behind it no seat is in a call or in a reset.
    pub fn reset<W: Wait>(&mut self, rt: &W)
        ensures reset { IsReset self.old self.new }
        ensures office { (self.new.plan ≡ self.old.plan) × (self.new.desk ≡ self.old.desk) }
        ensures rests { AreResting self.new.locals }
    {
        let board = &self.board;
        resets(
            rt,
            &board.shared,
            &mut self.place,
            self.heaps.as_mut_slice(),
            &self.plan,
            &self.key,
            &self.office,
        );
    }

    /// The pool and its heaps again, each at its number, with what it kept. No word changes, and no memory is taken.
    pub fn resume(self) -> (Pool<R>, Vec<Heap<R>>)
        ensures { IsResumed R.out R.faults R.got R.passed self result.0 result.1.items }
    {
        let QuietPool {
            board,
            mut place,
            mut heaps,
            office,
            plan,
            key,
        } = self;
        forget(&board.shared, &mut place, &plan, &key, office);
        scatter(&board.shared, &mut place, heaps.as_mut_slice(), &plan, &key);
        let pool = Shared {
            board,
            spare: place,
            plan,
            key,
        };
        (pool, heaps)
    }

    /// Ends the pool: each region that is out is passed to the callback once, by number; where the policy has no
    /// callback for giving back, each is kept. No memory is taken.
    pub fn destroy(self) -> (Destroyed, R)
        ensures { EndsBy R.out R.faults R.passed self.plan.policy.frees self.desk result.0 result.1 }
    {
        let QuietPool { office, plan, .. } = self;
        ends(office, plan.policy.frees)
    }

    /// A quiet pool is a state of a run: with its words, its office and its seats' entries.
    pub fn is_state_of_run(&self)
        ensures { IsState R.out R.faults R.got R.passed self.now }
    {
        let _ = &self.plan;
    }
}
