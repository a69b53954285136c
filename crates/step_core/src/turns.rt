//! Calls that begin, and turns.

ghost use Rattle.std.specs.Prelude.{◌≡◌, IfOk, OnErr};
ghost use Rattle.step_core.specs.Turns.{begun_in, rested, entered, StepsIn, Turns};

use crate::machine::PlainMachine;
use crate::steps::{begin, gives_at, made, name_of, tell};
use pool_types::{InCall, Raw, Request, Turn};
use std::alloc::{AllocError, Global};
use step_local::row_of;
use step_parts::{Journal, StepName, add_parts_to, looks_at_bin};

/// The answer of a turn is entered, where that is asked.
fn enter(journal: &mut Journal, enters: bool, name: StepName, turn: &Turn)
    ensures { journal.new ≡ entered enters name turn.now journal.old }
{
    if let Turn::Done(answer) = turn
        && enters
    {
        journal.answer(name, *answer);
    }
}

impl<R: Raw> PlainMachine<R> {
    /// Begins a call at a seat. `InCall` is the answer exactly where the seat is in a call, where the pool has no such
    /// seat, and while a reset is not done; then nothing changes.
    pub fn begin(&mut self, seat: u8, request: Request) -> Result<(), InCall>
        ensures { (self.new, result) ≡ begun_in self.old seat request }
    {
        if self.resetting.is_some() {
            return Err(InCall { seat });
        }
        begin(self.locals.as_mut_slice(), seat, request)
    }

    /// Makes no step.
    fn rests(&mut self) -> Turn
        ensures machine { self.new ≡ rested self.old }
        ensures turn { result ≡ Turn.Idle }
    {
        self.journal.clear();
        self.made = None;
        Turn::Idle
    }

    /// A seat makes its step, and learns what that found; its answer is entered where that is asked.
    pub(crate) fn steps_in(&mut self, enters: bool, seat: u8) -> Result<Turn, AllocError>
        ensures steps { IfOk result (λ turn. StepsIn R.out R.faults R.got R.passed enters self.old seat turn self.new) }
        ensures kept { OnErr result (self.new ≡ self.old) }
    {
        let index = usize::from(seat);
        let Some(local) = self.locals.get(index) else {
            return Ok(self.rests());
        };
        let action = local.next();
        let gives = gives_at(local.at);
        let row = row_of(local.at);
        let name = name_of(&action, row, seat, self.steps);
        let found = self.depot.finds(action);
        self.moves.find_with(
            self.depot.words(),
            self.depot.key(),
            self.depot.regions(),
            local,
            &action,
            found,
        )?;
        self.journal
            .record(name, looks_at_bin(local, found), &self.moves)?;
        add_parts_to(&mut self.totals, self.moves.parts());
        let seen = self.depot.step(action, gives);
        self.made = made(&action, row, seen);
        self.steps = name.step;
        let turn = tell(self.locals.as_mut_slice(), index, seen);
        enter(&mut self.journal, enters, name, &turn);
        Ok(turn)
    }

    /// Makes the seat's next step, and tells what the turn came to: `Idle` where no call of the seat is begun, and while
    /// a reset is not done. The error is a want of memory, and then nothing has changed. Memory comes from the allocator
    /// that the pool was made with.
    pub fn turn(&mut self, _alloc: Global, seat: u8) -> Result<Turn, AllocError>
        ensures turns { IfOk result (λ turn. Turns R.out R.faults R.got R.passed self.old seat turn self.new) }
        ensures kept { OnErr result (self.new ≡ self.old) }
    {
        match self.resetting {
            Some(_) => Ok(self.rests()),
            None => self.steps_in(true, seat),
        }
    }
}
