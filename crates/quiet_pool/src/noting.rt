//! How the place of a pool comes to know all of it, and how it forgets that.
ghost use Rattle.std.specs.Prelude.{◌≡◌, ◌<◌, ◌≤◌, ◌∷◌, [], ℕ, List, length, None, Some};
ghost use Rattle.step_runs.specs.Callbacks.{office_of};
ghost use Rattle.step_runs.specs.Laws.{IsOf};
ghost use Rattle.atomic_driver.specs.Rule.{IsTable, IsMade, key_by, plain};
ghost use Rattle.quiet_pool.specs.Noting.{IsAll, IsWhole, Notes, Forgets, noted};

use atomic_driver::{Place, Plan, Slot, Top, View};
use atomic_table::Play;
use pool_types::Raw;
use pool_words::Key;
use regions::Office;
use std::marker::{Brand, PhantomData};

/// What a step or a look of a quiet pool is told beside the table: what the pool was made with, its table, what its
/// place knows, and the seat, with its local, as which the step is made.
pub trait Standing<D> {
    ghost use Rattle.std.specs.Prelude.{Option};
    ghost use Rattle.step_local.specs.declared.frames.Local.{Local};
    ghost use Rattle.atomic_table.specs.Seated.{TableId};
    ghost use Rattle.atomic_table.specs.Table.{Me};
    ghost use Rattle.atomic_driver.specs.declared.rule.Plan.{Plan};
    ghost use Rattle.atomic_driver.specs.declared.rule.View.{View};

    ghost plan: { Plan };

    ghost table: { TableId };

    ghost me: { Me (Option D) (View D) };

    ghost seat: { ℕ };

    ghost now: { Local };
}

impl<D> Standing<D> for Brand {
    ghost use Rattle.step_local.specs.Frames.{made};
    ghost use Rattle.atomic_driver.specs.Rule.{no_plan, key_by, plain};

    ghost plan = { no_plan };

    ghost table = { record {
      words = 0;
      slots = 0;
      views_name = 0;
      atom = 0;
      block = 0;
      offset = 0;
      slot_names = [];
    } };

    ghost me = { (plain [], []) };

    ghost seat = { 0 };

    ghost now = { made (key_by no_plan) 0 };
}

/// The load with which a place notes all, and takes the office.
pub(crate) struct NotesAll<B> {
    of: PhantomData<B>,
}

/// The load with which it gives the office back.
pub(crate) struct ForgetsAll;

impl<R: Raw, B: Standing<Office<R>>> Play<Slot<R>, View<Office<R>>> for NotesAll<B> {
    ghost then = { λ _ me _ now. Notes (office_of R.out R.faults R.got R.passed (key_by B.plan)) (key_by B.plan)
        (IsMade R.out B.plan) (IsOf B.plan.policy B.plan.limits) me now };
}

impl<R: Raw> Play<Slot<R>, View<Office<R>>> for ForgetsAll {
    ghost then = { λ _ me _ now. Forgets me now };
}

/// The place notes all.
fn notes_as<R: Raw, B: Standing<Office<R>>>(
    top: &Top<R>,
    place: &mut Place<R>,
    plan: &Plan,
    key: &Key,
)
    requires table { (place.old.table_id ≡ top.now.table_id) × (top.now.key ≡ plan.now) }
    requires sizes { IsTable top.now.table_id key.now }
    requires key { (key.now ≡ key_by plan.now) × (plan.now ≡ B.plan) }
    requires some { 0 < key.now.seats }
    requires place { place.old.me ≡ (plain place.old.me.0.entries, []) }
    requires all { IsAll key.now place.old.me.0.entries }
    ensures table { place.new.table_id ≡ place.old.table_id }
    ensures notes { Notes (office_of R.out R.faults R.got R.passed (key_by plan.now)) (key_by plan.now)
        (IsMade R.out plan.now) (IsOf plan.now.policy plan.now.limits) place.old.me place.new.me }
{
    let _ = plan;
    let _ = key;
    top.load::<NotesAll<B>>(place, 0);
}

/// The place that has all seats notes all words, and takes the office out of its slot.
pub(crate) fn note<R: Raw>(top: &Top<R>, place: &mut Place<R>, plan: &Plan, key: &Key) -> Office<R>
    requires table { (place.old.table_id ≡ top.now.table_id) × (top.now.key ≡ plan.now) }
    requires sizes { IsTable top.now.table_id key.now }
    requires key { key.now ≡ key_by plan.now }
    requires some { 0 < key.now.seats }
    requires place { place.old.me ≡ (plain place.old.me.0.entries, []) }
    requires all { IsAll key.now place.old.me.0.entries }
    ensures table { place.new.table_id ≡ place.old.table_id }
    ensures noted { (words : List ℕ) × (place.new.me ≡ (noted place.old.me.0.entries words result, (0, None) ∷ []))
        × IsWhole (office_of R.out R.faults R.got R.passed (key_by plan.now)) (key_by plan.now) (IsMade R.out plan.now)
        words result place.old.me.0.entries }
{
    notes_as::<R, Brand>(top, place, plan, key);
    match top.exchange(place, 0, None) {
        Some(office) => office,
        None => unreachable!(),
    }
}

/// The place gives the office back into its slot, and knows nothing more of the words.
pub(crate) fn forget<R: Raw>(
    top: &Top<R>,
    place: &mut Place<R>,
    plan: &Plan,
    key: &Key,
    office: Office<R>,
)
    requires table { (place.old.table_id ≡ top.now.table_id) × (top.now.key ≡ plan.now) }
    requires sizes { IsTable top.now.table_id key.now }
    requires key { key.now ≡ key_by plan.now }
    requires some { 0 < key.now.seats }
    requires noted { (words : List ℕ)
        × (place.old.me ≡ (noted place.old.me.0.entries words office, (0, None) ∷ [])) }
    ensures table { place.new.table_id ≡ place.old.table_id }
    ensures forgets { place.new.me ≡ (plain place.old.me.0.entries, []) }
{
    let _ = plan;
    let _ = key;
    let _ = top.exchange(place, 0, Some(office));
    top.load::<ForgetsAll>(place, 0);
}
