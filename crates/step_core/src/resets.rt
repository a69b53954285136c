//! A reset, seat by seat and turn by turn.

ghost use Rattle.std.specs.Prelude.{◌≡◌, IfOk, OnErr};
ghost use Rattle.step_core.specs.Resets.{seat_of, kind_of, part_after, begun_at, begun_part, reset_begun, part_turned};
ghost use Rattle.step_core.specs.Resets.{PartTurns, ResetTurns, ResetsFrom, Resets};

use crate::machine::PlainMachine;
use pool_types::{InCall, Raw, ResetError, Turn};
use std::alloc::{AllocError, Global};
use step_local::{Local, Reset};

/// More turns than a reset has.
const MOST_RESET_TURNS: u64 = u64::MAX;

/// How far a reset has come: first each seat gives up its own slabs, and then all else goes to the bins, as seat 0.
#[derive(Clone, Copy)]
pub enum Resetting {
    Heap { seat: u8 },
    Pool,
}

impl Resetting {
    /// The seat as which it steps.
    fn seat(self) -> u8
        ensures { result ≡ seat_of self }
    {
        match self {
            Resetting::Heap { seat } => seat,
            Resetting::Pool => 0,
        }
    }

    fn kind(self) -> Reset
        ensures { result ≡ kind_of self }
    {
        match self {
            Resetting::Heap { .. } => Reset::Heap,
            Resetting::Pool => Reset::Pool,
        }
    }

    /// What comes next, where there are so many seats.
    fn after(self, seats: u8) -> Option<Resetting>
        ensures { result ≡ part_after seats self }
    {
        match self {
            Resetting::Heap { seat } if u32::from(seat) + 1 < u32::from(seats) => {
                Some(Resetting::Heap { seat: seat + 1 })
            }
            Resetting::Heap { .. } => Some(Resetting::Pool),
            Resetting::Pool => None,
        }
    }
}

/// A seat begins its part.
fn begin_at(locals: &mut [Local], part: Resetting)
    ensures { locals.new ≡ begun_at locals.old part }
{
    let index = usize::from(part.seat());
    if index < locals.len() {
        let _ = locals[index].begin_reset(part.kind());
    }
}

impl<R: Raw> PlainMachine<R> {
    /// The reset goes on here.
    fn begin_part(&mut self, part: Option<Resetting>)
        ensures { self.new ≡ begun_part self.old part }
    {
        if let Some(part) = part {
            begin_at(self.locals.as_mut_slice(), part);
        }
        self.resetting = part;
    }

    /// Begins a reset. `InCall` is the answer exactly where a seat is in a call, with the lowest one; then nothing
    /// changes. Until the reset is done, no call begins.
    pub fn begin_reset(&mut self) -> Result<(), InCall>
        ensures { (self.new, result) ≡ reset_begun self.old }
    {
        match self.lowest_in_call() {
            Some(seat) => Err(InCall { seat }),
            None => {
                self.begin_part(Some(Resetting::Heap { seat: 0 }));
                Ok(())
            }
        }
    }

    /// What follows a turn of a part, and whether the reset is done.
    fn follows(&mut self, part: Resetting, turn: &Turn) -> bool
        ensures { (self.new, result) ≡ part_turned part turn.now self.old }
    {
        match turn {
            Turn::Done(_) => {
                let seats = self.depot.key().seats;
                let next = part.after(seats);
                self.begin_part(next);
                next.is_none()
            }
            Turn::Stepped | Turn::Waits(_) | Turn::Idle => false,
        }
    }

    /// Makes the next step of a part.
    fn part_turn(&mut self, part: Resetting) -> Result<bool, AllocError>
        ensures turns { IfOk result (λ done. PartTurns R.out R.faults R.got R.passed self.old part done self.new) }
        ensures kept { OnErr result (self.new ≡ self.old) }
    {
        match self.steps_in(false, part.seat()) {
            Ok(turn) => Ok(self.follows(part, &turn)),
            Err(error) => Err(error),
        }
    }

    /// Makes the next step of a reset, and tells whether it is done. The error is a want of memory, and then nothing
    /// has changed. Memory comes from the allocator that the pool was made with.
    pub fn reset_turn(&mut self, _alloc: Global) -> Result<bool, AllocError>
        ensures turns { IfOk result (λ done. ResetTurns R.out R.faults R.got R.passed self.old done self.new) }
        ensures kept { OnErr result (self.new ≡ self.old) }
    {
        match self.resetting {
            Some(part) => self.part_turn(part),
            None => Ok(true),
        }
    }

    /// Makes the steps of a reset until it is done.
    fn resets_on(&mut self, alloc: Global) -> Result<(), ResetError>
        ensures { ResetsFrom R.out R.faults R.got R.passed self.old result self.new }
    {
        for _ in 0..MOST_RESET_TURNS {
            let Ok(done) = self.reset_turn(alloc) else {
                return Err(ResetError::NoMemory);
            };
            if done {
                return Ok(());
            }
        }
        Err(ResetError::NoMemory)
    }

    /// Resets the pool: no object is held any more, no slab, and nothing is cached or queued; each region is one free
    /// block. No region goes back. `CallBegun` comes first, exactly where a seat is in a call, with the lowest one;
    /// then nothing changes. After `NoMemory` the reset is begun and not done: no call begins, `reset_turn` goes on with
    /// it, and the pool can be destroyed.
    pub fn reset(&mut self, alloc: Global) -> Result<(), ResetError>
        ensures { Resets R.out R.faults R.got R.passed self.old result self.new }
    {
        match self.lowest_in_call() {
            Some(seat) => Err(ResetError::CallBegun(seat)),
            None => {
                self.begin_part(Some(Resetting::Heap { seat: 0 }));
                self.resets_on(alloc)
            }
        }
    }
}
