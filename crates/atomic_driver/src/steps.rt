//! One step of a course, on the table.
ghost use Rattle.std.specs.Prelude.{◌≡◌, ℕ};
ghost use mathlib.Core.Option.{some};
ghost use Rattle.step_local.specs.Course.{course};
ghost use Rattle.step_runs.specs.Entries.{seen_by};
ghost use Rattle.atomic_driver.specs.Rule.{IsTable, key_by};
ghost use Rattle.atomic_driver.specs.Steps.{word_of, PoolReady, PoolSteps};

use crate::rule::{Plan, Ruled, View};
use atomic_table::{Play, Seat, Shared};
use pool_types::Raw;
use pool_words::{Action, Key, Seen, Word};
use regions::Office;
use std::marker::{Brand, PhantomData};
use step_local::Local;

/// What lies in the one slot: the office, where no seat has it in hand.
pub type Slot<R> = Option<Office<R>>;

/// The table's words and its slot.
pub type Top<R> = Shared<Slot<R>, View<Office<R>>, Plan, Ruled>;

/// A place at the table, for one seat or for several.
pub type Place<R> = Seat<Slot<R>, View<Office<R>>>;

/// What one step is told beside the table: the entry as whose step it is made, the local and the office that the seat
/// has by now, which may be ahead of its entry.
pub trait Turning<D> {
    ghost use Rattle.std.specs.Prelude.{Option};
    ghost use Rattle.step_local.specs.declared.frames.Local.{Local};
    ghost use Rattle.step_runs.specs.declared.entry.Entry.{Entry};
    ghost use Rattle.atomic_driver.specs.declared.rule.Plan.{Plan};

    ghost plan: { Plan };

    ghost spot: { ℕ };

    ghost entry: { Entry D };

    ghost now: { Local };

    ghost desk: { Option D };
}

impl<D> Turning<D> for Brand {
    ghost use Rattle.std.specs.Prelude.{None};
    ghost use Rattle.step_local.specs.Frames.{made};
    ghost use Rattle.step_runs.specs.Entries.{first_entry};
    ghost use Rattle.atomic_driver.specs.Rule.{no_plan, key_by};

    ghost plan = { no_plan };

    ghost spot = { 0 };

    ghost entry = { first_entry (key_by no_plan) 0 };

    ghost now = { made (key_by no_plan) 0 };

    ghost desk = { None };
}

/// A step that learns what it found.
pub(crate) struct Acts<B> {
    of: PhantomData<B>,
}

/// A step that learns 0: a store, or a load of another word in place of one that is none.
pub(crate) struct Blind<B> {
    of: PhantomData<B>,
}

impl<R: Raw, B: Turning<Office<R>>> Play<Slot<R>, View<Office<R>>> for Acts<B> {
    ghost then = { λ _. PoolSteps R.out R.faults R.got R.passed B.plan B.spot B.entry B.now B.desk };
}

impl<R: Raw, B: Turning<Office<R>>> Play<Slot<R>, View<Office<R>>> for Blind<B> {
    ghost then = { λ _ me _ now. PoolSteps R.out R.faults R.got R.passed B.plan B.spot B.entry B.now B.desk me 0 now };
}

/// Makes the step of the local's course on this word, and tells what it found.
pub(crate) fn step<R: Raw, B: Turning<Office<R>>>(
    shared: &Top<R>,
    place: &mut Place<R>,
    plan: &Plan,
    key: &Key,
    local: &Local,
    office: &Slot<R>,
    word: Word,
) -> Seen
    requires table { place.old.table_id ≡ shared.now.table_id }
    requires sizes { IsTable shared.now.table_id key.now }
    requires plan { (shared.now.key ≡ plan.now) × (plan.now ≡ B.plan) }
    requires key { key.now ≡ key_by plan.now }
    requires local { local.now ≡ B.now }
    requires word { word_of (course local.now) ≡ some word }
    requires ready { PoolReady R.out R.faults R.got R.passed B.plan B.spot B.entry B.now B.desk place.old.me }
    ensures table { place.new.table_id ≡ place.old.table_id }
    ensures id { place.new.id ≡ place.old.id }
    ensures steps { (found : ℕ) × (result ≡ seen_by (course local.now) found)
        × PoolSteps R.out R.faults R.got R.passed B.plan B.spot B.entry B.now B.desk place.old.me found place.new.me }
{
    let index = word.index(key);
    let action = local.next();
    if index >= key.words() {
        shared.load::<Blind<B>>(place, 0);
        return seen_by(action, 0);
    }
    let found = match action {
        Action::Load(_) => shared.load::<Acts<B>>(place, index),
        Action::Store(_, value) => {
            shared.store::<Blind<B>>(place, index, value);
            0
        }
        Action::Swap(_, value) => shared.swap::<Acts<B>>(place, index, value),
        Action::Exchange { from, to, .. } => {
            shared.compare_exchange::<Acts<B>>(place, index, from, to)
        }
        Action::Add(_, value) => shared.fetch_add::<Acts<B>>(place, index, value),
        Action::TakeOffice(_) | Action::GiveOffice | Action::Nothing => unreachable!(),
    };
    seen_by(action, found)
}

/// What a seat is told of an action on a word that found this value.
fn seen_by(action: Action, found: u64) -> Seen
    ensures { result ≡ seen_by action found }
{
    match action {
        Action::Load(_) | Action::Swap(_, _) | Action::Exchange { .. } | Action::Add(_, _) => {
            Seen::Word(found)
        }
        Action::Store(_, _) | Action::TakeOffice(_) | Action::GiveOffice | Action::Nothing =>
            Seen::Done,
    }
}
