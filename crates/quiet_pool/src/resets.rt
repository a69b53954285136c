//! A reset of a quiet pool: seat by seat, and turn by turn.
ghost use Rattle.std.specs.Prelude.{◌≡◌, ◌<◌};
ghost use Rattle.atomic_driver.specs.Rule.{IsTable, key_by};
ghost use Rattle.quiet_pool.specs.Held.{IsNoted, locals_of, plans_of, quiet_of};
ghost use Rattle.quiet_pool.specs.Quiet.{AreIdle, IsState};
ghost use Rattle.quiet_pool.specs.Resets.{AreResting, AreRestingBelow, HeapsReset, IsPart, IsReset, RestsAt};
ghost use Rattle.quiet_pool.specs.Resets.{locals_begun};

use crate::steps::turn;
use atomic_driver::{Place, Plan, Top};
use pool_api::Heap;
use pool_types::{Raw, Turn};
use pool_words::Key;
use regions::Office;
use std::sync::Wait;
use std::thread;
use step_local::Reset;

/// A seat begins its part of a reset.
fn begins<R: Raw>(heaps: &mut [Heap<R>], seat: u8, reset: Reset)
    ensures locals { locals_of heaps.new ≡ locals_begun (locals_of heaps.old) seat reset }
    ensures plans { plans_of heaps.new ≡ plans_of heaps.old }
{
    let index = usize::from(seat);
    if index < heaps.len() {
        let heap = &mut heaps[index];
        let _ = heap.local.begin_reset(reset);
    }
}

/// Makes the part of a seat: it begins, and makes turns to the one that answers.
fn part<R: Raw, W: Wait>(
    rt: &W,
    top: &Top<R>,
    place: &mut Place<R>,
    heaps: &mut [Heap<R>],
    plan: &Plan,
    key: &Key,
    office: &Office<R>,
    seat: u8,
    reset: Reset,
)
    requires table { place.old.table_id ≡ top.now.table_id }
    requires sizes { IsTable top.now.table_id key.now }
    requires plan { top.now.key ≡ plan.now }
    requires key { key.now ≡ key_by plan.now }
    requires seat { seat < key.now.seats }
    requires noted { IsNoted office.now place.old.me }
    requires state { IsState R.out R.faults R.got R.passed
        (quiet_of plan.now office.now (locals_of heaps.old) place.old.me) }
    requires idle { AreIdle (locals_of heaps.old) }
    ensures table { place.new.table_id ≡ place.old.table_id }
    ensures plans { plans_of heaps.new ≡ plans_of heaps.old }
    ensures noted { IsNoted office.now place.new.me }
    ensures state { IsState R.out R.faults R.got R.passed
        (quiet_of plan.now office.now (locals_of heaps.new) place.new.me) }
    ensures part { IsPart (quiet_of plan.now office.now (locals_of heaps.old) place.old.me) seat reset
        (quiet_of plan.now office.now (locals_of heaps.new) place.new.me) }
    ensures rests { RestsAt seat (locals_of heaps.old) (locals_of heaps.new) }
{
    begins(heaps, seat, reset);
    for _ in rt.forever() {
        match turn(top, place, heaps, plan, key, office, seat) {
            Turn::Done(_) => return,
            Turn::Waits(_) => thread::yield_now(),
            Turn::Stepped => {}
            Turn::Idle => {}
        }
    }
    unreachable!()
}

/// Each seat gives up what its heap keeps, from the first.
fn heaps_parts<R: Raw, W: Wait>(
    rt: &W,
    top: &Top<R>,
    place: &mut Place<R>,
    heaps: &mut [Heap<R>],
    plan: &Plan,
    key: &Key,
    office: &Office<R>,
)
    requires table { place.old.table_id ≡ top.now.table_id }
    requires sizes { IsTable top.now.table_id key.now }
    requires plan { top.now.key ≡ plan.now }
    requires key { key.now ≡ key_by plan.now }
    requires noted { IsNoted office.now place.old.me }
    requires state { IsState R.out R.faults R.got R.passed
        (quiet_of plan.now office.now (locals_of heaps.old) place.old.me) }
    requires idle { AreIdle (locals_of heaps.old) }
    ensures table { place.new.table_id ≡ place.old.table_id }
    ensures plans { plans_of heaps.new ≡ plans_of heaps.old }
    ensures noted { IsNoted office.now place.new.me }
    ensures state { IsState R.out R.faults R.got R.passed
        (quiet_of plan.now office.now (locals_of heaps.new) place.new.me) }
    ensures parts { HeapsReset (quiet_of plan.now office.now (locals_of heaps.old) place.old.me) key.now.seats
        (quiet_of plan.now office.now (locals_of heaps.new) place.new.me) }
    ensures rests { AreRestingBelow key.now.seats (locals_of heaps.new) }
    ensures idle { AreIdle (locals_of heaps.new) }
{
    for seat in 0..key.seats {
        part(rt, top, place, heaps, plan, key, office, seat, Reset::Heap);
    }
}

/// Resets a quiet pool: each seat's part, and then that of all else, as seat 0.
pub(crate) fn resets<R: Raw, W: Wait>(
    rt: &W,
    top: &Top<R>,
    place: &mut Place<R>,
    heaps: &mut [Heap<R>],
    plan: &Plan,
    key: &Key,
    office: &Office<R>,
)
    requires table { place.old.table_id ≡ top.now.table_id }
    requires sizes { IsTable top.now.table_id key.now }
    requires plan { top.now.key ≡ plan.now }
    requires key { key.now ≡ key_by plan.now }
    requires some { 0 < key.now.seats }
    requires noted { IsNoted office.now place.old.me }
    requires state { IsState R.out R.faults R.got R.passed
        (quiet_of plan.now office.now (locals_of heaps.old) place.old.me) }
    requires idle { AreIdle (locals_of heaps.old) }
    ensures table { place.new.table_id ≡ place.old.table_id }
    ensures plans { plans_of heaps.new ≡ plans_of heaps.old }
    ensures noted { IsNoted office.now place.new.me }
    ensures state { IsState R.out R.faults R.got R.passed
        (quiet_of plan.now office.now (locals_of heaps.new) place.new.me) }
    ensures reset { IsReset (quiet_of plan.now office.now (locals_of heaps.old) place.old.me)
        (quiet_of plan.now office.now (locals_of heaps.new) place.new.me) }
    ensures rests { AreResting (locals_of heaps.new) }
{
    heaps_parts(rt, top, place, heaps, plan, key, office);
    part(rt, top, place, heaps, plan, key, office, 0, Reset::Pool);
}
