//! How the place of a pool takes in the places of its heaps, and cuts them off.
ghost use Rattle.std.specs.Prelude.{◌≡◌, ◌+◌, ◌<◌, ◌≤◌, ◌∷◌, ◌++◌, [], true, length, None, Some};
ghost use Rattle.step_local.specs.Getting.{is_idle};
ghost use Rattle.atomic_driver.specs.Rule.{IsTable, key_by, plain};
ghost use Rattle.atomic_driver.specs.Seating.{others_of, IsFrom};
ghost use Rattle.atomic_driver.specs.Steps.{own_of};
ghost use Rattle.pool_api.specs.Heaps.{entry_of};
ghost use Rattle.quiet_pool.specs.Calls.{IsHeapAt};
ghost use Rattle.quiet_pool.specs.Noting.{joined};

use atomic_driver::{Place, Plan, Top, View};
use atomic_table::{Join, Split};
use pool_api::Heap;
use pool_types::Raw;
use pool_words::Key;
use std::mem;

/// A place that knows nothing is cut off.
pub(crate) struct Nothing;

/// The first seat is cut off.
pub(crate) struct FirstSeat;

/// The other's seats come behind the place's own.
pub(crate) struct Joined;

impl<D> Split<View<D>> for Nothing {
    ghost use Rattle.atomic_driver.specs.Rule.{plain};

    ghost left = { λ v. v };

    ghost right = { λ _. plain [] };
}

impl<D> Split<View<D>> for FirstSeat {
    ghost use Rattle.atomic_driver.specs.Rule.{plain, no_plan, key_by};
    ghost use Rattle.atomic_driver.specs.Steps.{own_of};
    ghost use Rattle.atomic_driver.specs.Seating.{others_of};

    ghost left = { λ v. plain (others_of v.entries) };

    ghost right = { λ v. plain (own_of (key_by no_plan) v.entries ∷ []) };
}

impl<D> Join<View<D>> for Joined {
    ghost use Rattle.atomic_driver.specs.Rule.{plain};
    ghost use Rattle.quiet_pool.specs.Calls.{IsHeapAt};
    ghost use Rattle.quiet_pool.specs.Noting.{joined};

    ghost both = { joined };

    ghost spent = { plain [] };
}

/// Cuts off a place that knows nothing.
fn empty_place<R: Raw>(top: &Top<R>, place: &mut Place<R>, plan: &Plan, key: &Key) -> Place<R>
    requires table { (place.old.table_id ≡ top.now.table_id) × (top.now.key ≡ plan.now) }
    requires sizes { IsTable top.now.table_id key.now }
    requires key { key.now ≡ key_by plan.now }
    ensures place { (place.new.table_id ≡ place.old.table_id) × (place.new.me ≡ place.old.me) }
    ensures empty { result.table_id ≡ place.old.table_id }
{
    let _ = plan;
    let _ = key;
    top.split_seat::<Nothing>(place)
}

/// Takes the place away; one that knows nothing stands for it.
pub(crate) fn take_place<R: Raw>(
    top: &Top<R>,
    place: &mut Place<R>,
    plan: &Plan,
    key: &Key,
) -> Place<R>
    requires table { (place.old.table_id ≡ top.now.table_id) × (top.now.key ≡ plan.now) }
    requires sizes { IsTable top.now.table_id key.now }
    requires key { key.now ≡ key_by plan.now }
    ensures place { (result.table_id ≡ place.old.table_id) × (result.me ≡ place.old.me) }
{
    let empty = empty_place(top, place, plan, key);
    mem::replace(place, empty)
}

/// Takes in the place of a heap that is in no call.
pub(crate) fn takes_in<R: Raw>(
    top: &Top<R>,
    place: &mut Place<R>,
    heap: &mut Heap<R>,
    plan: &Plan,
    key: &Key,
    seat: usize,
)
    requires table { (place.old.table_id ≡ top.now.table_id) × (top.now.key ≡ plan.now) }
    requires sizes { IsTable top.now.table_id key.now }
    requires key { key.now ≡ key_by plan.now }
    requires place { place.old.me ≡ (plain place.old.me.0.entries, []) }
    requires heap { IsHeapAt R.out R.faults R.got R.passed top.now.table_id plan.now seat heap.old }
    requires idle { is_idle heap.old.local.at ≡ true }
    ensures place { (place.new.table_id ≡ place.old.table_id)
        × (place.new.me ≡ (plain (place.old.me.0.entries ++ entry_of heap.old ∷ []), [])) }
    ensures local { heap.new.local ≡ heap.old.local }
    ensures plan { heap.new.plan ≡ heap.old.plan }
{
    let _ = seat;
    let empty = empty_place(top, place, plan, key);
    let taken = mem::replace(&mut heap.place, empty);
    top.join_seat::<Joined>(place, taken);
}

/// Cuts the first seat off, as the place of its heap.
pub(crate) fn hands_on<R: Raw>(
    top: &Top<R>,
    place: &mut Place<R>,
    heap: &mut Heap<R>,
    plan: &Plan,
    key: &Key,
)
    requires table { (place.old.table_id ≡ top.now.table_id) × (top.now.key ≡ plan.now) }
    requires sizes { IsTable top.now.table_id key.now }
    requires key { key.now ≡ key_by plan.now }
    requires some { 0 < length place.old.me.0.entries }
    requires unnoted { place.old.me ≡ (plain place.old.me.0.entries, []) }
    requires row { IsFrom (own_of key.now place.old.me.0.entries).seat place.old.me.0.entries }
    ensures place { (place.new.table_id ≡ place.old.table_id)
        × (place.new.me ≡ (plain (others_of place.old.me.0.entries), [])) }
    ensures heap { (heap.new.place.table_id ≡ place.old.table_id)
        × (heap.new.place.me ≡ (plain (own_of key.now place.old.me.0.entries ∷ []), [])) }
    ensures local { heap.new.local ≡ heap.old.local }
    ensures plan { heap.new.plan ≡ heap.old.plan }
{
    let _ = plan;
    let _ = key;
    heap.place = top.split_seat::<FirstSeat>(place);
}
