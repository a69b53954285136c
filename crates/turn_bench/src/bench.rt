//! A machine, and the calls and turns that were made on it.

ghost use Rattle.std.specs.Prelude.{◌≡◌};

use pool_types::{Answer, CreateError, Limits, Place, Policy, Request, ScriptedRaw, Turn};
use std::alloc::{AllocError, Global};
use step_core::PlainMachine;

/// More turns than a call makes here.
const MOST_TURNS: u64 = 100_000_000;

/// A growing pool of 64 seats, as `poolreplay` makes it.
const POLICY: Policy = Policy {
    gets: true,
    frees: true,
    version: 1,
    granularity: 0,
    fixed: false,
    keep: false,
    reserved: 0,
};

const LIMITS: Limits = Limits {
    pool: 0,
    seats: 64,
    span: 1024,
    region: 1_048_576,
};

/// An object that is held, and the seat that was granted it.
#[derive(Clone, Copy)]
struct Held {
    seat: u8,
    place: Place,
}

/// Who frees the objects that are held.
#[derive(Clone, Copy)]
pub enum By {
    /// Each the seat that was granted it.
    Keeper,
    /// All this seat.
    Seat(u8),
}

/// A machine, the objects that are held, and how many calls and turns were made.
#[derive(Drop)]
pub struct Bench {
    machine: PlainMachine<ScriptedRaw>,
    held: Vec<Held>,
    pub calls: u64,
    pub turns: u64,
}

impl Bench {
    /// A pool without a region, in which no call was made.
    pub fn make(alloc: Global) -> Result<Bench, CreateError> {
        let raw = ScriptedRaw::of(Vec::new(alloc), Vec::new(alloc));
        Ok(Bench {
            machine: PlainMachine::make(alloc, POLICY, LIMITS, raw)?,
            held: Vec::new(alloc),
            calls: 0,
            turns: 0,
        })
    }

    /// Makes the turns of a call to its answer.
    fn finish(&mut self, alloc: Global, seat: u8) -> Result<Option<Answer>, AllocError> {
        for _ in 0..MOST_TURNS {
            self.turns = self.turns.saturating_add(1);
            match self.machine.turn(alloc, seat) {
                Ok(Turn::Done(answer)) => return Ok(Some(answer)),
                Ok(_) => {}
                Err(error) => return Err(error),
            }
        }
        Ok(None)
    }

    /// Makes a call. None is the answer where it does not begin.
    fn call(
        &mut self,
        alloc: Global,
        seat: u8,
        request: Request,
    ) -> Result<Option<Answer>, AllocError> {
        match self.machine.begin(seat, request) {
            Ok(()) => {
                self.calls = self.calls.saturating_add(1);
                self.finish(alloc, seat)
            }
            Err(_) => Ok(None),
        }
    }

    /// A seat asks for an object.
    pub fn malloc(&mut self, alloc: Global, seat: u8, size: u64) -> Result<(), AllocError> {
        if let Some(Answer::Got { place, .. }) = self.call(alloc, seat, Request::Malloc { size })? {
            self.held.push(Held { seat, place })?;
        }
        Ok(())
    }

    /// All objects that are held are freed, the oldest first.
    pub fn free_all(&mut self, alloc: Global, by: By) -> Result<(), AllocError> {
        for at in 0..self.held.len() {
            if let Some(held) = self.held.get(at).copied() {
                let seat = match by {
                    By::Keeper => held.seat,
                    By::Seat(seat) => seat,
                };
                let place = Some(held.place);
                self.call(alloc, seat, Request::Free { place })?;
            }
        }
        self.held.clear();
        Ok(())
    }
}
