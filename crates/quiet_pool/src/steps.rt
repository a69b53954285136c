//! A step of a quiet pool, as one of its seats.
ghost use Rattle.std.specs.Prelude.{◌≡◌, ◌<◌, ◌≤◌, ℕ};
ghost use mathlib.Core.Option.{some};
ghost use Rattle.pool_words.specs.Actions.{finds};
ghost use Rattle.step_local.specs.Course.{course};
ghost use Rattle.step_core.specs.Steps.{told_at};
ghost use Rattle.step_runs.specs.Callbacks.{office_of};
ghost use Rattle.step_runs.specs.Entries.{seen_by};
ghost use Rattle.atomic_driver.specs.Rule.{IsTable, key_by};
ghost use Rattle.atomic_driver.specs.Steps.{word_of};
ghost use Rattle.quiet_pool.specs.Held.{IsNoted, locals_of, plans_of, quiet_of};
ghost use Rattle.quiet_pool.specs.Quiet.{IsState, words_noted};
ghost use Rattle.quiet_pool.specs.Stepping.{CanStep, me_stepped, me_turned, value_noted, turned};

use crate::noting::Standing;
use atomic_driver::{Place, Plan, Slot, Top, View};
use atomic_table::Play;
use pool_api::Heap;
use pool_types::{Raw, Turn};
use pool_words::{Action, Key, Seen, Word};
use regions::Office;
use std::marker::{Brand, PhantomData};
use step_local::Local;

/// A step that learns what it found.
struct Learns<B> {
    of: PhantomData<B>,
}

/// A step that learns nothing: a store, or a load in place of a step on a word that is none.
struct Blind<B> {
    of: PhantomData<B>,
}

impl<R: Raw, B: Standing<Office<R>>> Play<Slot<R>, View<Office<R>>> for Learns<B> {
    ghost then = { λ s me found now. (found ≡ value_noted me.0.note s.word)
        × (now ≡ me_stepped (key_by B.plan) B.seat B.now me) };
}

impl<R: Raw, B: Standing<Office<R>>> Play<Slot<R>, View<Office<R>>> for Blind<B> {
    ghost then = { λ _ me _ now. now ≡ me_stepped (key_by B.plan) B.seat B.now me };
}

/// What a seat is told of an action on a word that found this value.
fn seen_by(action: Action, found: u64) -> Seen
    ensures { result ≡ seen_by action found }
{
    match action {
        Action::Load(_) | Action::Swap(_, _) | Action::Exchange { .. } | Action::Add(_, _) =>
            Seen::Word(found),
        Action::Store(_, _) | Action::TakeOffice(_) | Action::GiveOffice | Action::Nothing =>
            Seen::Done,
    }
}

/// Makes the step of the local's course on this word, and tells what it found.
fn step<R: Raw, B: Standing<Office<R>>>(
    top: &Top<R>,
    place: &mut Place<R>,
    plan: &Plan,
    key: &Key,
    seat: u8,
    local: &Local,
    word: Word,
) -> Seen
    requires table { place.old.table_id ≡ top.now.table_id }
    requires sizes { IsTable top.now.table_id key.now }
    requires plan { (top.now.key ≡ plan.now) × (plan.now ≡ B.plan) }
    requires key { key.now ≡ key_by plan.now }
    requires seat { seat ≡ B.seat }
    requires local { local.now ≡ B.now }
    requires word { word_of (course local.now) ≡ some word }
    requires can { CanStep (office_of R.out R.faults R.got R.passed (key_by B.plan)) (key_by B.plan) B.seat B.now
        place.old.me }
    ensures table { place.new.table_id ≡ place.old.table_id }
    ensures stepped { place.new.me ≡ me_stepped (key_by B.plan) B.seat B.now place.old.me }
    ensures seen { result ≡ seen_by (course local.now)
        (finds (key_by B.plan) (words_noted place.old.me.0.note) (course local.now)) }
{
    let _ = seat;
    let index = word.index(key);
    let action = local.next();
    if index >= key.words() {
        top.load::<Blind<B>>(place, 0);
        return seen_by(action, 0);
    }
    let found = match action {
        Action::Load(_) => top.load::<Learns<B>>(place, index),
        Action::Store(_, value) => {
            top.store::<Blind<B>>(place, index, value);
            0
        }
        Action::Swap(_, value) => top.swap::<Learns<B>>(place, index, value),
        Action::Exchange { from, to, .. } => top.compare_exchange::<Learns<B>>(
            place, index, from, to,
        ),
        Action::Add(_, value) => top.fetch_add::<Learns<B>>(place, index, value),
        Action::TakeOffice(_) | Action::GiveOffice | Action::Nothing => unreachable!(),
    };
    seen_by(action, found)
}

/// Makes the step of a seat's local, if it makes one, and tells what it found.
fn steps<R: Raw>(
    top: &Top<R>,
    place: &mut Place<R>,
    plan: &Plan,
    key: &Key,
    seat: u8,
    local: &Local,
) -> Seen
    requires table { place.old.table_id ≡ top.now.table_id }
    requires sizes { IsTable top.now.table_id key.now }
    requires plan { top.now.key ≡ plan.now }
    requires key { key.now ≡ key_by plan.now }
    requires can { CanStep (office_of R.out R.faults R.got R.passed (key_by plan.now)) (key_by plan.now) seat local.now
        place.old.me }
    ensures table { place.new.table_id ≡ place.old.table_id }
    ensures stepped { place.new.me ≡ me_turned (key_by plan.now) seat local.now place.old.me }
    ensures seen { result ≡ seen_by (course local.now)
        (finds (key_by plan.now) (words_noted place.old.me.0.note) (course local.now)) }
{
    let word = match local.next() {
        Action::Load(word) => word,
        Action::Store(word, _) => word,
        Action::Swap(word, _) => word,
        Action::Exchange { word, .. } => word,
        Action::Add(word, _) => word,
        Action::TakeOffice(_) | Action::GiveOffice | Action::Nothing => return Seen::Done,
    };
    step::<R, Brand>(top, place, plan, key, seat, local, word)
}

/// A seat learns what its step found.
fn tells<R: Raw>(heaps: &mut [Heap<R>], seat: usize, seen: Seen) -> Turn
    ensures locals { locals_of heaps.new ≡ (told_at (locals_of heaps.old) seat seen).0 }
    ensures turn { result ≡ (told_at (locals_of heaps.old) seat seen).1 }
    ensures plans { plans_of heaps.new ≡ plans_of heaps.old }
{
    if seat < heaps.len() {
        let heap = &mut heaps[seat];
        heap.local.told(seen)
    } else {
        Turn::Idle
    }
}

/// Makes the turn of a seat.
pub(crate) fn turn<R: Raw>(
    top: &Top<R>,
    place: &mut Place<R>,
    heaps: &mut [Heap<R>],
    plan: &Plan,
    key: &Key,
    office: &Office<R>,
    seat: u8,
) -> Turn
    requires table { place.old.table_id ≡ top.now.table_id }
    requires sizes { IsTable top.now.table_id key.now }
    requires plan { top.now.key ≡ plan.now }
    requires key { key.now ≡ key_by plan.now }
    requires noted { IsNoted office.now place.old.me }
    requires state { IsState R.out R.faults R.got R.passed
        (quiet_of plan.now office.now (locals_of heaps.old) place.old.me) }
    ensures table { place.new.table_id ≡ place.old.table_id }
    ensures plans { plans_of heaps.new ≡ plans_of heaps.old }
    ensures noted { IsNoted office.now place.new.me }
    ensures turned { (quiet_of plan.now office.now (locals_of heaps.new) place.new.me, result)
        ≡ turned (quiet_of plan.now office.now (locals_of heaps.old) place.old.me) seat }
    ensures state { IsState R.out R.faults R.got R.passed
        (quiet_of plan.now office.now (locals_of heaps.new) place.new.me) }
{
    let _ = office;
    let index = usize::from(seat);
    if index >= heaps.len() {
        return Turn::Idle;
    }
    let heap = &heaps[index];
    let seen = steps(top, place, plan, key, seat, &heap.local);
    tells(heaps, index, seen)
}
