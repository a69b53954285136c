//! The words and the office of a pool, and the steps on them.

ghost use Rattle.std.specs.Prelude.{◌≡◌, ◌≤◌, ◌<◌, [], false, IfOk, IfErr, ℕ};
ghost use Rattle.step_depot.specs.Steps.{Steps, Takes, Puts, PutsIf, asked_granules, key_of};
ghost use Rattle.pool_words.specs.Actions.{finds, after_action};

use pool_types::{CreateError, Limits, Policy, Raw, RegionRec, check};
use pool_words::{Action, Key, OfficeJob, Seen, finds, performed};
use regions::Office;
use std::alloc::{AllocError, Global};
use std::marker::Model;

/// The words and the office of a pool.
#[derive(Drop)]
pub struct Depot<R: Raw> {
    key: Key,
    words: Vec<u64>,
    office: Office<R>,
    is_out: bool,
}

impl<R: Raw> Model for Depot<R> {
    ghost use Rattle.step_depot.specs.Steps.{Stock, IsStocked};

    ghost Value = { Stock R };

    ghost view = { λ d. record { key = d.key; words = d.words.items; desk = d.office; out = d.is_out } };

    ghost invariant = { λ d. IsStocked d.key d.office };
}

/// What a pool is made with.
fn key_of(policy: &Policy, limits: &Limits) -> Key
    ensures { result ≡ key_of policy.now limits.now }
{
    Key {
        pool: limits.pool,
        seats: limits.seats,
        span: limits.span,
        region: limits.region,
        granularity: policy.granularity,
        gets: policy.gets,
        frees: policy.frees,
        fixed: policy.fixed,
        keep: policy.keep,
    }
}

impl<R: Raw> Depot<R> {
    ghost use Rattle.pool_types.specs.Policies.{Checks, IsAllowed};
    ghost use Rattle.step_depot.specs.Steps.{first_stock, starts_at, IsUnmade};

    /// The words of a pool, all 0, and its office, in its slot. The refusals are those of `check`, in its order, and
    /// then a want of memory.
    pub fn make(
        alloc: Global,
        policy: Policy,
        limits: Limits,
        raw: R,
    ) -> Result<Depot<R>, CreateError>
        requires { R.out raw ≡ [] }
        ensures made { IfOk result (λ depot. depot ≡ first_stock policy limits raw) }
        ensures allowed { IfOk result (λ depot. IsAllowed policy limits) }
        ensures refused { IfErr result (IsUnmade policy limits) }
    {
        check(&policy, &limits)?;
        let key = key_of(&policy, &limits);
        let Ok(words) = vec![in alloc; 0_u64; key.words()] else {
            return Err(CreateError::NoMemory);
        };
        Ok(Depot {
            key,
            words,
            office: Office::over(policy, limits, raw),
            is_out: false,
        })
    }

    /// The pool's key: its number, its seats and its span, and what of its policy the steps ask for.
    pub fn key(&self) -> &Key
        ensures { result.now ≡ self.now.key }
    {
        &self.key
    }

    /// The value of each word.
    pub fn words(&self) -> &[u64]
        ensures { result.now ≡ self.now.words }
    {
        self.words.as_slice()
    }

    /// The records of the regions out, by number.
    pub fn regions(&self) -> &[RegionRec]
        ensures { result.now ≡ self.now.desk.records }
    {
        self.office.regions()
    }

    /// What an action on a word would find.
    pub fn finds(&self, action: Action) -> u64
        ensures { result ≡ finds self.now.key self.now.words action }
    {
        finds(self.words.as_slice(), &self.key, action)
    }

    /// So many granules, but at least one, and fewer than the span.
    fn asked_granules(&self, granules: u32) -> u32
        ensures exact { result ≡ asked_granules self.now.key granules }
        ensures some { 1 ≤ result }
        ensures most { result < self.now.desk.limits.span }
    {
        granules.max(1).min(self.key.span.saturating_sub(1))
    }

    /// Takes the office out of its slot; to obtain a region, the callback is asked.
    fn takes(&mut self, job: OfficeJob) -> Seen
        ensures { Takes R.out R.faults R.got self.old job result self.new }
    {
        if self.is_out {
            return Seen::OfficeOut;
        }
        match job {
            OfficeJob::Obtain { granules } => {
                let granules = self.asked_granules(granules);
                self.is_out = true;
                match self.office.obtain(granules) {
                    Ok(came) => Seen::Obtained(came),
                    Err(error) => Seen::Refused(error),
                }
            }
            OfficeJob::Give { .. } => {
                self.is_out = true;
                Seen::Given
            }
        }
    }

    /// Whether a region begins at this index.
    fn starts(&self, first: u32) -> bool
        ensures { result ≡ starts_at self.now.desk first }
    {
        self.office.regions().iter().any(|one| one.first == first)
    }

    /// Passes the region that begins at this index to the callback, if one does.
    fn puts(&mut self, first: u32)
        ensures desk { Puts R.out R.faults R.passed self.old.desk first self.new.desk }
        ensures rest { self.new ≡ record self.old { desk = self.new.desk } }
    {
        if self.starts(first) {
            let _ = self.office.give(first);
        }
    }

    /// Makes an action on a word, and tells what it found; with it the region at an index may be passed to the
    /// callback.
    fn performs(&mut self, action: Action, gives: Option<u32>) -> u64
        ensures found { result ≡ finds self.old.key self.old.words action }
        ensures desk { PutsIf R.out R.faults R.passed self.old.desk gives self.new.desk }
        ensures rest { self.new ≡ record self.old { words = after_action self.old.key self.old.words action; desk = self.new.desk } }
    {
        let found = performed(self.words.as_mut_slice(), &self.key, action);
        if let Some(first) = gives {
            self.puts(first);
        }
        found
    }

    /// Makes a step, and tells what it found. `gives` is the index at which a region begins that is passed to the
    /// callback with it.
    pub fn step(&mut self, action: Action, gives: Option<u32>) -> Seen
        ensures { Steps R.out R.faults R.got R.passed self.old action gives result self.new }
    {
        match action {
            Action::TakeOffice(job) => self.takes(job),
            Action::GiveOffice => {
                self.is_out = false;
                Seen::Done
            }
            Action::Nothing => Seen::Done,
            Action::Store(_, _) => {
                self.performs(action, gives);
                Seen::Done
            }
            _ => Seen::Word(self.performs(action, gives)),
        }
    }

    /// Gives the office back, with the regions that are out.
    pub fn office(self) -> Office<R>
        ensures { result ≡ self.desk }
    {
        let Depot { office, .. } = self;
        office
    }
}
