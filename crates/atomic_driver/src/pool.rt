//! The pool: its table, and how its seats are handed out.
ghost use Rattle.std.specs.Prelude.{◌≡◌, ℕ, ◌+◌, ◌<◌, ◌≤◌, ◌∷◌, [], length, None, Some, IfOk, IfErr, OnOk};
ghost use Rattle.pool_types.specs.Policies.{IsAllowed};
ghost use Rattle.step_depot.specs.Steps.{IsUnmade};
ghost use Rattle.step_local.specs.Frames.{made};
ghost use Rattle.step_runs.specs.Entries.{first_entry};
ghost use Rattle.atomic_driver.specs.Rule.{IsTable, key_by, plain, first_entries, first_view_of};
ghost use Rattle.atomic_driver.specs.Steps.{own_of};
ghost use Rattle.atomic_driver.specs.Seating.{others_of, IsFrom, IsSeat, AreSeats};

use crate::rule::{Plan, Ruled, View};
use crate::seat::DriverSeat;
use crate::steps::{Place, Slot, Top};
use atomic_table::{Split, Table};
use pool_types::{CreateError, Limits, Policy, Raw, Turn, check};
use pool_words::Key;
use regions::Office;
use std::alloc::{AllocError, Global};
use step_local::Local;
use step_runs::Entry;

/// The first seat is cut off.
pub(crate) struct FirstSeat;

impl<D> Split<View<D>> for FirstSeat {
    ghost use Rattle.pool_words.specs.declared.words.Key.{Key};
    ghost use Rattle.atomic_driver.specs.Rule.{plain, no_plan, key_by};
    ghost use Rattle.atomic_driver.specs.Steps.{own_of};
    ghost use Rattle.atomic_driver.specs.Seating.{others_of};

    ghost left = { λ v. plain (others_of v.entries) };

    ghost right = { λ v. plain (own_of (key_by no_plan) v.entries ∷ []) };
}

type Board<R> = Table<Slot<R>, View<Office<R>>, Plan, Ruled, Global>;

/// A pool that threads share: its words, the office in its slot, and a spare place at the table.
#[derive(Drop)]
pub struct Shared<R: Raw> {
    pub board: Board<R>,
    pub spare: Place<R>,
    pub plan: Plan,
    pub key: Key,
}

/// The key of a pool that is made so.
fn key_by(plan: &Plan) -> Key
    ensures { result ≡ key_by plan.now }
{
    Key {
        pool: plan.limits.pool,
        seats: plan.limits.seats,
        span: plan.limits.span,
        region: plan.limits.region,
        granularity: plan.policy.granularity,
        gets: plan.policy.gets,
        frees: plan.policy.frees,
        fixed: plan.policy.fixed,
        keep: plan.policy.keep,
    }
}

/// The table of a new pool, and a spare place that has all seats.
fn create<R: Raw>(
    alloc: Global,
    plan: &Plan,
    key: &Key,
    raw: R,
) -> Result<(Board<R>, Place<R>), AllocError>
    requires allowed { IsAllowed plan.now.policy plan.now.limits }
    requires none_out { R.out raw ≡ [] }
    requires key { key.now ≡ key_by plan.now }
    ensures table { IfOk result (λ t. (t.1.table_id ≡ t.0.shared.table_id)
        × IsTable t.0.shared.table_id (key_by plan.now) × (t.0.shared.key ≡ plan.now)) }
    ensures spare { IfOk result (λ t. t.1.me ≡ (first_view_of plan.now, [])) }
{
    let words = vec![in alloc; 0_u64; key.words()]?;
    let mut slots = Vec::new(alloc);
    slots.push(Some(Office::over(plan.policy, plan.limits, raw)))?;
    match Table::new(alloc, words.as_slice(), slots, plan) {
        Ok(made) => Ok(made),
        Err(_) => Err(AllocError),
    }
}

/// Cuts the first seat off the spare place.
fn split_off<R: Raw>(
    top: &Top<R>,
    spare: &mut Place<R>,
    plan: &Plan,
    key: &Key,
    local: Local,
) -> DriverSeat<R>
    requires table { (spare.old.table_id ≡ top.now.table_id) × (top.now.key ≡ plan.now) }
    requires sizes { IsTable top.now.table_id (key_by plan.now) }
    requires key { key.now ≡ key_by plan.now }
    requires first { own_of (key_by plan.now) spare.old.me.0.entries ≡ first_entry (key_by plan.now) local.seat }
    requires some { 0 < length spare.old.me.0.entries }
    requires unnoted { spare.old.me.0.note ≡ None }
    requires row { IsFrom local.seat spare.old.me.0.entries }
    requires local { local ≡ made (key_by plan.now) local.seat }
    ensures spare { (spare.new.table_id ≡ spare.old.table_id) × (spare.new.id ≡ spare.old.id)
        × (spare.new.me ≡ (plain (others_of spare.old.me.0.entries), spare.old.me.1)) }
    ensures seat { IsSeat R.out R.faults R.got R.passed spare.old.table_id plan.now local.seat result }
{
    let place = top.split_seat::<FirstSeat>(spare);
    DriverSeat {
        place,
        local,
        office: None,
        plan: *plan,
        key: *key,
    }
}

/// Cuts each seat off the spare place, from the first.
fn hand_out<R: Raw>(
    top: &Top<R>,
    spare: &mut Place<R>,
    alloc: Global,
    plan: &Plan,
    key: &Key,
) -> Result<Vec<DriverSeat<R>>, AllocError>
    requires table { (spare.old.table_id ≡ top.now.table_id) × (top.now.key ≡ plan.now) }
    requires sizes { IsTable top.now.table_id (key_by plan.now) }
    requires key { key.now ≡ key_by plan.now }
    requires spare { spare.old.me ≡ (first_view_of plan.now, []) }
    ensures spare { spare.new.table_id ≡ spare.old.table_id }
    ensures spent { OnOk result (spare.new.me ≡ (plain [], [])) }
    ensures count { IfOk result (λ v. length v.items ≡ key.now.seats) }
    ensures seats { IfOk result (λ v. AreSeats R.out R.faults R.got R.passed spare.old.table_id plan.now v.items) }
{
    let mut seats = Vec::new(alloc);
    for seat in 0..key.seats {
        let local = Local::make(alloc, *key, seat)?;
        seats.push(split_off(top, spare, plan, key, local))?;
    }
    Ok(seats)
}

impl<R: Raw> Shared<R> {
    ghost use Rattle.atomic_driver.specs.Seating.{IsPool, HasSeats, HasOwn};

    /// A pool, and its seats, each at its number. No region is obtained yet. The refusals are those of `check`, in its
    /// order, and then a want of memory.
    pub fn make(
        alloc: Global,
        policy: Policy,
        limits: Limits,
        raw: R,
    ) -> Result<(Shared<R>, Vec<DriverSeat<R>>), CreateError>
        requires none_out { R.out raw ≡ [] }
        ensures plan { IfOk result (λ made. (made.0.plan.policy ≡ policy) × (made.0.plan.limits ≡ limits)) }
        ensures pool { IfOk result (λ made. IsPool R.out R.faults R.got R.passed made.0) }
        ensures seats { IfOk result (λ made. HasSeats R.out R.faults R.got R.passed made.0 made.1.items) }
        ensures owned { IfOk result (λ made. HasOwn R.out R.faults R.got R.passed made.0 made.1.items) }
        ensures allowed { IfOk result (λ made. IsAllowed policy limits) }
        ensures refused { IfErr result (IsUnmade policy limits) }
    {
        check(&policy, &limits)?;
        let plan = Plan { policy, limits };
        let key = key_by(&plan);
        let Ok((board, mut spare)) = create(alloc, &plan, &key, raw) else {
            return Err(CreateError::NoMemory);
        };
        let Ok(seats) = hand_out(&board.shared, &mut spare, alloc, &plan, &key) else {
            return Err(CreateError::NoMemory);
        };
        let shared = Shared {
            board,
            spare,
            plan,
            key,
        };
        Ok((shared, seats))
    }

    /// How many seats were made.
    pub fn seats(&self) -> u8
        ensures { result ≡ self.now.plan.limits.seats }
    {
        self.plan.limits.seats
    }
}

impl<R: Raw> DriverSeat<R> {
    ghost use Rattle.atomic_driver.specs.Seating.{IsPool};
    ghost use Rattle.atomic_driver.specs.Steps.{Acts, PoolDriven};

    /// Makes the turn that comes next: the one row that the local's course names, or a turn without a step.
    pub fn act(&mut self, shared: &Shared<R>) -> Turn
        requires pool { IsPool R.out R.faults R.got R.passed shared.now }
        requires table { self.old.place.table_id ≡ shared.now.board.shared.table_id }
        requires plan { self.old.plan ≡ shared.now.plan }
        requires driven { PoolDriven R.out R.faults R.got R.passed self.old.plan self.old.local self.old.office
            self.old.place.me }
        ensures table { self.new.place.table_id ≡ self.old.place.table_id }
        ensures plan { self.new.plan ≡ self.old.plan }
        ensures driven { PoolDriven R.out R.faults R.got R.passed self.new.plan self.new.local self.new.office
            self.new.place.me }
        ensures row { Acts self.old.local (own_of self.old.key self.old.place.me.0.entries) self.new.local
            (own_of self.old.key self.new.place.me.0.entries) result }
    {
        self.turn_at(&shared.board.shared)
    }
}
