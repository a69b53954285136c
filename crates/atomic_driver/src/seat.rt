//! A seat of the table: its local, and the office where it has it in hand.
ghost use Rattle.std.specs.Prelude.{◌≡◌, ◌≤◌, None, Some};
ghost use Rattle.pool_words.specs.declared.actions.Action.TheVariants.{TakeOffice, GiveOffice};
ghost use mathlib.Core.Option.{some};
ghost use Rattle.regions.specs.Obtaining.{Obtains, starts_at};
ghost use Rattle.step_depot.specs.Steps.{Puts, asked_granules};
ghost use Rattle.step_local.specs.Course.{course};
ghost use Rattle.step_local.specs.Getting.{begun};
ghost use Rattle.step_runs.specs.Callbacks.{office_of};
ghost use Rattle.step_runs.specs.Places.{given_by, gives_in, gives_at, gives_of};
ghost use Rattle.step_runs.specs.Runs.{Passes};
ghost use Rattle.atomic_driver.specs.Rule.{IsTable, key_by};
ghost use Rattle.atomic_driver.specs.Steps.{Acts, own_of, word_of, is_in_call, PoolDriven, Taken, given_first};

use crate::rule::Plan;
use crate::steps::{Place, Top, step};
use pool_types::{InCall, Raw, RegionRec, Request, Turn};
use pool_words::{Action, Key, OfficeJob, Seen, Word};
use region_steps::OfficeAt;
use regions::{ObtainError, Office};
use std::marker::Brand;
use step_local::{At, Local, OfficeFor};

/// A seat of the table, its local by now, and the office where it is in hand.
#[derive(Drop)]
pub struct DriverSeat<R: Raw> {
    pub place: Place<R>,
    pub local: Local,
    pub office: Option<Office<R>>,
    pub plan: Plan,
    pub key: Key,
    ghost keyed: { key ≡ key_by plan },
}

/// The index at which the region begins that the office is taken for to give back.
fn given_first(job: OfficeFor) -> Option<u32>
    ensures { result ≡ given_first job }
{
    match job {
        OfficeFor::Ask => None,
        OfficeFor::Put { first } => Some((first % 4294967296) as u32),
        OfficeFor::Drain { first, .. } => Some((first % 4294967296) as u32),
    }
}

/// The region that is passed to the callback right behind the next step.
fn gives_of(local: &Local) -> Option<u32>
    ensures { result ≡ gives_of local.now }
{
    let At::Office { job, at } = local.at else {
        return None;
    };
    match at {
        OfficeAt::Remove { .. } => given_first(job),
        _ => None,
    }
}

/// Asks the office for so many granules, but at least one, and fewer than the span.
fn asks<R: Raw>(office: &mut Office<R>, key: &Key, granules: u32) -> Result<RegionRec, ObtainError>
    requires { office.old.limits.span ≡ key.now.span }
    ensures { Obtains R.out R.faults R.got office.old (asked_granules key.now granules) result office.new }
{
    let _ = office.regions();
    let asked = granules.max(1).min(key.span.saturating_sub(1));
    office.obtain(asked)
}

/// Whether a region begins at this index.
fn starts<R: Raw>(office: &Office<R>, first: u32) -> bool
    ensures { result ≡ starts_at office.now first }
{
    office.regions().iter().any(|one| one.first == first)
}

/// Passes the region that begins at this index to the callback, if one does.
fn puts<R: Raw>(office: &mut Office<R>, first: u32)
    ensures { Puts R.out R.faults R.passed office.old first office.new }
{
    if starts(office, first) {
        let _ = office.give(first);
    }
}

/// What the office in hand answers where it was taken for this.
fn taken<R: Raw>(office: &mut Office<R>, key: &Key, job: OfficeJob) -> Seen
    requires { office.old.limits.span ≡ key.now.span }
    ensures { Taken (office_of R.out R.faults R.got R.passed key.now) job office.old result office.new }
{
    match job {
        OfficeJob::Obtain { granules } => match asks(office, key, granules) {
            Ok(came) => Seen::Obtained(came),
            Err(error) => Seen::Refused(error),
        },
        OfficeJob::Give { .. } => Seen::Given,
    }
}

/// Passes the region that is given back with this local's step, where there is one.
fn passes<R: Raw>(office: &mut Option<Office<R>>, key: &Key, local: &Local)
    ensures { Passes (office_of R.out R.faults R.got R.passed key.now) (gives_of local.now) office.old office.new }
{
    let Some(first) = gives_of(local) else {
        return;
    };
    if let Some(office) = office {
        puts(office, first);
    }
}

impl<R: Raw> DriverSeat<R> {
    /// The seat's number.
    pub fn seat(&self) -> u8
        ensures { result ≡ self.now.local.seat }
    {
        self.local.seat
    }

    /// Whether a call is begun and not done.
    pub fn in_call(&self) -> bool
        ensures { result ≡ is_in_call self.now.local }
    {
        !matches!(self.local.at, At::Idle)
    }

    /// Begins a call, with no step. It is refused exactly where one is begun and not done.
    pub fn begin(&mut self, request: Request) -> Result<(), InCall>
        requires driven { PoolDriven R.out R.faults R.got R.passed self.old.plan self.old.local self.old.office
            self.old.place.me }
        ensures place { self.new.place ≡ self.old.place }
        ensures office { self.new.office ≡ self.old.office }
        ensures plan { self.new.plan ≡ self.old.plan }
        ensures begun { (self.new.local, result) ≡ begun self.old.local request }
        ensures driven { PoolDriven R.out R.faults R.got R.passed self.new.plan self.new.local self.new.office
            self.new.place.me }
    {
        self.local.begin(request)
    }

    /// Makes the turn that comes next at this table.
    pub fn turn_at(&mut self, shared: &Top<R>) -> Turn
        requires table { self.old.place.table_id ≡ shared.now.table_id }
        requires sizes { IsTable shared.now.table_id self.old.key }
        requires plan { shared.now.key ≡ self.old.plan }
        requires driven { PoolDriven R.out R.faults R.got R.passed self.old.plan self.old.local self.old.office
            self.old.place.me }
        ensures table { self.new.place.table_id ≡ self.old.place.table_id }
        ensures id { self.new.place.id ≡ self.old.place.id }
        ensures plan { self.new.plan ≡ self.old.plan }
        ensures driven { PoolDriven R.out R.faults R.got R.passed self.new.plan self.new.local self.new.office
            self.new.place.me }
        ensures row { Acts self.old.local (own_of self.old.key self.old.place.me.0.entries) self.new.local
            (own_of self.old.key self.new.place.me.0.entries) result }
    {
        let word = match self.local.next() {
            Action::Nothing => return self.local.told(Seen::Done),
            Action::TakeOffice(job) => return self.takes_out(shared, job),
            Action::GiveOffice => return self.puts_back(shared),
            Action::Load(word) => word,
            Action::Store(word, _) => word,
            Action::Swap(word, _) => word,
            Action::Exchange { word, .. } => word,
            Action::Add(word, _) => word,
        };
        self.steps(shared, word)
    }

    /// Takes the office out of its slot; to obtain a region, the callback is asked.
    fn takes_out(&mut self, shared: &Top<R>, job: OfficeJob) -> Turn
        requires table { self.old.place.table_id ≡ shared.now.table_id }
        requires job { course self.old.local ≡ TakeOffice job }
        requires driven { PoolDriven R.out R.faults R.got R.passed self.old.plan self.old.local self.old.office
            self.old.place.me }
        ensures table { self.new.place.table_id ≡ self.old.place.table_id }
        ensures id { self.new.place.id ≡ self.old.place.id }
        ensures plan { self.new.plan ≡ self.old.plan }
        ensures driven { PoolDriven R.out R.faults R.got R.passed self.new.plan self.new.local self.new.office
            self.new.place.me }
        ensures row { Acts self.old.local (own_of self.old.key self.old.place.me.0.entries) self.new.local
            (own_of self.old.key self.new.place.me.0.entries) result }
    {
        let mut office = shared.exchange(&mut self.place, 0, None);
        let seen = match &mut office {
            Some(office) => taken(office, &self.key, job),
            None => unreachable!(),
        };
        self.office = office;
        self.local.told(seen)
    }

    /// Puts the office back into its slot.
    fn puts_back(&mut self, shared: &Top<R>) -> Turn
        requires table { self.old.place.table_id ≡ shared.now.table_id }
        requires job { course self.old.local ≡ GiveOffice }
        requires driven { PoolDriven R.out R.faults R.got R.passed self.old.plan self.old.local self.old.office
            self.old.place.me }
        ensures table { self.new.place.table_id ≡ self.old.place.table_id }
        ensures id { self.new.place.id ≡ self.old.place.id }
        ensures plan { self.new.plan ≡ self.old.plan }
        ensures driven { PoolDriven R.out R.faults R.got R.passed self.new.plan self.new.local self.new.office
            self.new.place.me }
        ensures row { Acts self.old.local (own_of self.old.key self.old.place.me.0.entries) self.new.local
            (own_of self.old.key self.new.place.me.0.entries) result }
    {
        let office = self.office.take();
        let _ = shared.exchange(&mut self.place, 0, office);
        self.local.told(Seen::Done)
    }

    /// Makes the step on this word.
    fn steps(&mut self, shared: &Top<R>, word: Word) -> Turn
        requires table { self.old.place.table_id ≡ shared.now.table_id }
        requires sizes { IsTable shared.now.table_id self.old.key }
        requires plan { shared.now.key ≡ self.old.plan }
        requires word { word_of (course self.old.local) ≡ some word }
        requires driven { PoolDriven R.out R.faults R.got R.passed self.old.plan self.old.local self.old.office
            self.old.place.me }
        ensures table { self.new.place.table_id ≡ self.old.place.table_id }
        ensures id { self.new.place.id ≡ self.old.place.id }
        ensures plan { self.new.plan ≡ self.old.plan }
        ensures driven { PoolDriven R.out R.faults R.got R.passed self.new.plan self.new.local self.new.office
            self.new.place.me }
        ensures row { Acts self.old.local (own_of self.old.key self.old.place.me.0.entries) self.new.local
            (own_of self.old.key self.new.place.me.0.entries) result }
    {
        let seen = step::<R, Brand>(
            shared,
            &mut self.place,
            &self.plan,
            &self.key,
            &self.local,
            &self.office,
            word,
        );
        passes(&mut self.office, &self.key, &self.local);
        self.local.told(seen)
    }
}
