//! What a machine keeps, how it is made, and questions to it.

ghost use Rattle.std.specs.Prelude.{◌≡◌, [], IfOk, IfErr};
ghost use Rattle.step_core.specs.Machines.{made_locals, first_machine, is_in_call, is_in_call_at, lowest_in_call, held_back};

use crate::resets::Resetting;
use part_model::{Journaled, Totals};
use pool_types::{CreateError, Limits, Policy, Raw, RegionRec, Row};
use pool_words::Key;
use std::alloc::{AllocError, Global};
use std::marker::Model;
use step_depot::Depot;
use step_local::{At, Local};
use step_parts::{Journal, Moves};

/// A pool of several seats, for one thread.
#[derive(Drop)]
pub struct PlainMachine<R: Raw> {
    pub(crate) depot: Depot<R>,
    pub(crate) locals: Vec<Local>,
    /// What the step moves that is made; room that is kept from turn to turn.
    pub(crate) moves: Moves,
    pub(crate) journal: Journal,
    pub(crate) totals: Totals,
    pub(crate) made: Option<Row>,
    pub(crate) steps: u64,
    pub(crate) resetting: Option<Resetting>,
}

impl<R: Raw> Model for PlainMachine<R> {
    ghost use Rattle.step_core.specs.Machines.{Machine};

    ghost Value = { Machine R };

    ghost view = { λ m. record {
      stock = m.depot;
      locals = m.locals.items;
      entries = m.journal;
      totals = m.totals;
      made = m.made;
      steps = m.steps;
      resetting = m.resetting;
    } };
}

/// The locals of all seats.
fn made_locals(alloc: Global, key: Key) -> Result<Vec<Local>, AllocError>
    ensures { IfOk result (λ locals. locals.items ≡ made_locals key key.seats) }
{
    let mut locals = Vec::new(alloc);
    for seat in 0..key.seats {
        locals.push(Local::make(alloc, key, seat)?)?;
    }
    Ok(locals)
}

/// Whether a call of the local is begun and has no answer yet.
fn is_in_call(local: &Local) -> bool
    ensures { result ≡ is_in_call local.now }
{
    !matches!(local.at, At::Idle)
}

/// Whether a seat is in a call.
fn is_in_call_at(locals: &[Local], seat: usize) -> bool
    ensures { result ≡ is_in_call_at locals.now seat }
{
    match locals.get(seat) {
        Some(local) => is_in_call(local),
        None => false,
    }
}

/// The lowest seat that is in a call.
fn lowest_in_call(locals: &[Local]) -> Option<u8>
    ensures { result ≡ lowest_in_call locals.now }
{
    for (seat, local) in locals.iter().enumerate() {
        if is_in_call(local) {
            return Some((seat % 256) as u8);
        }
    }
    None
}

impl<R: Raw> PlainMachine<R> {
    ghost use Rattle.pool_types.specs.Policies.{IsAllowed};
    ghost use Rattle.step_depot.specs.Steps.{IsUnmade};

    /// A pool without a region, over a callback that has none out, with all seats idle. The refusals are those of
    /// `check`, in its order, and then a want of memory.
    pub fn make(
        alloc: Global,
        policy: Policy,
        limits: Limits,
        raw: R,
    ) -> Result<PlainMachine<R>, CreateError>
        requires { R.out raw ≡ [] }
        ensures made { IfOk result (λ machine. machine ≡ first_machine policy limits raw) }
        ensures allowed { IfOk result (λ machine. IsAllowed policy limits) }
        ensures refused { IfErr result (IsUnmade policy limits) }
    {
        let depot = Depot::make(alloc, policy, limits, raw)?;
        let key = *depot.key();
        let Ok(locals) = made_locals(alloc, key) else {
            return Err(CreateError::NoMemory);
        };
        let Ok(journal) = Journal::make(alloc) else {
            return Err(CreateError::NoMemory);
        };
        Ok(PlainMachine {
            depot,
            locals,
            moves: Moves::make(alloc),
            journal,
            totals: Totals::default(),
            made: None,
            steps: 0,
            resetting: None,
        })
    }

    /// The pool's key: its number, its seats and its span, and what of its policy the steps ask for.
    pub fn key(&self) -> &Key
        ensures { result.now ≡ self.now.stock.key }
    {
        self.depot.key()
    }

    /// The value of each word.
    pub fn words(&self) -> &[u64]
        ensures { result.now ≡ self.now.stock.words }
    {
        self.depot.words()
    }

    /// The seats' locals.
    pub fn locals(&self) -> &[Local]
        ensures { result.now ≡ self.now.locals }
    {
        self.locals.as_slice()
    }

    /// The records of the regions out, by number.
    pub fn regions(&self) -> &[RegionRec]
        ensures { result.now ≡ self.now.stock.desk.records }
    {
        self.depot.regions()
    }

    /// The entries of the last turn that was made: what its step moved and answered. None where it did neither.
    pub fn entries(&self) -> &[Journaled]
        ensures { result.now ≡ self.now.entries }
    {
        self.journal.entries()
    }

    /// How many bytes each kind of holder has, as the entries of all turns have moved them.
    pub fn totals(&self) -> Totals
        ensures { result ≡ self.now.totals }
    {
        self.totals
    }

    /// The kind of the step that the last turn made. None where it made no step, where its exchange found another value
    /// or the office was out, and before the first turn.
    pub fn made(&self) -> Option<Row>
        ensures { result ≡ self.now.made }
    {
        self.made
    }

    /// How many steps were made; the count stays at the greatest u64.
    pub fn steps(&self) -> u64
        ensures { result ≡ self.now.steps }
    {
        self.steps
    }

    /// Whether a call of the seat is begun and has no answer yet.
    pub fn is_in_call(&self, seat: u8) -> bool
        ensures { result ≡ is_in_call_at self.now.locals seat }
    {
        is_in_call_at(self.locals.as_slice(), usize::from(seat))
    }

    /// The lowest seat that is in a call.
    pub fn lowest_in_call(&self) -> Option<u8>
        ensures { result ≡ lowest_in_call self.now.locals }
    {
        lowest_in_call(self.locals.as_slice())
    }

    /// The lowest seat that is in a call, while no reset is begun that is not done.
    pub fn held_back(&self) -> Option<u8>
        ensures { result ≡ held_back self.now }
    {
        match self.resetting {
            Some(_) => None,
            None => self.lowest_in_call(),
        }
    }
}
