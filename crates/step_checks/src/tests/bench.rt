//! A pool that is stepped.

ghost use Rattle.std.specs.Prelude.{◌≡◌, [], IfOk};

use pool_types::{
    Answer, Destroyed, Grant, InCall, Limits, Place, Policy, Region, Request, ResetError, Row,
    ScriptedRaw, Turn,
};
use std::alloc::Global;
use std::process::Abort;
use std::test::Fail;
use step_core::PlainMachine;

/// More turns than a call here takes.
pub const MOST_TURNS: u32 = 20000;

/// Both callbacks, and no option.
pub const POLICY: Policy = Policy {
    gets: true,
    frees: true,
    version: 1,
    granularity: 0,
    fixed: false,
    keep: false,
    reserved: 0,
};

/// Two seats, and regions of eight granules.
pub const LIMITS: Limits = Limits {
    pool: 0,
    seats: 2,
    span: 1024,
    region: 65536,
};

/// A pool, and the allocator of its turns.
#[derive(Drop)]
pub struct Pool {
    pub machine: PlainMachine<ScriptedRaw>,
    pub alloc: Global,
}

/// A callback that gives these regions first.
pub fn raw_of(alloc: Global, gets: &[Option<Region>]) -> Result<ScriptedRaw, Fail>
    ensures { IfOk result (λ raw. raw.out ≡ []) }
{
    let gets = Vec::from_slice(alloc, gets)?;
    Ok(ScriptedRaw::of(gets, Vec::new(alloc)))
}

/// A pool over a callback that gives whatever it is asked for.
pub fn pool_of(alloc: Global, policy: Policy, limits: Limits) -> Result<Pool, Fail> {
    let raw = raw_of(alloc, &[])?;
    match PlainMachine::make(alloc, policy, limits, raw) {
        Ok(machine) => Ok(Pool { machine, alloc }),
        Err(_) => Err(Fail::from("a pool is refused")),
    }
}

/// A place in the first region.
pub fn place_at(offset: u64) -> Place {
    Place {
        pool: 0,
        region: 0,
        offset,
    }
}

/// What a call answers that got an object of the first region.
pub fn got(offset: u64, usable: u64, seat: u8, number: u64) -> Answer {
    Answer::Got {
        place: place_at(offset),
        usable,
        grant: Grant { seat, number },
    }
}

/// A turn with which a call ends that got an object of the first region.
pub fn turn_got(offset: u64, usable: u64, seat: u8, number: u64) -> Came {
    Came::Turn(Turn::Done(got(offset, usable, seat, number)))
}

/// Where the object is that a call got.
pub fn place_of(answer: Answer) -> Option<Place> {
    match answer {
        Answer::Got { place, .. } => Some(place),
        _ => None,
    }
}

impl Pool {
    /// Begins a call.
    pub fn begin(&mut self, seat: u8, request: Request) -> Result<(), Fail> {
        match self.machine.begin(seat, request) {
            Ok(()) => Ok(()),
            Err(_) => Err(Fail::from("a call is not begun")),
        }
    }

    /// One turn.
    pub fn turn(&mut self, seat: u8) -> Result<Turn, Fail> {
        Ok(self.machine.turn(self.alloc, seat)?)
    }

    /// Turns of a seat until one is no step.
    pub fn run(&mut self, seat: u8) -> Result<Turn, Fail> {
        for _ in 0..MOST_TURNS {
            let turn = self.turn(seat)?;
            if turn != Turn::Stepped {
                return Ok(turn);
            }
        }
        Err(Fail::from("a call has no end"))
    }

    /// Turns of a seat until one makes a step of this kind.
    pub fn run_to(&mut self, seat: u8, row: Row) -> Result<(), Fail> {
        for _ in 0..MOST_TURNS {
            if self.turn(seat)? != Turn::Stepped {
                return Err(Fail::from("a call stops before the step"));
            }
            if self.machine.made() == Some(row) {
                return Ok(());
            }
        }
        Err(Fail::from("a call has no such step"))
    }

    /// A whole call.
    pub fn call(&mut self, seat: u8, request: Request) -> Result<Answer, Fail> {
        self.begin(seat, request)?;
        match self.run(seat)? {
            Turn::Done(answer) => Ok(answer),
            _ => Err(Fail::from("a call has no answer")),
        }
    }

    /// The end of the pool, which comes back where a seat is in a call.
    pub fn end(self) -> Result<Destroyed, Pool> {
        let Pool { machine, alloc } = self;
        match machine.destroy() {
            Ok((destroyed, _raw)) => Ok(destroyed),
            Err(machine) => Err(Pool { machine, alloc }),
        }
    }
}

/// What is done to a pool: a call of a seat is begun or made whole, a seat makes a turn, turns until one is no step, or
/// turns until one makes a step of this kind; or the pool is reset, whole or by turns.
#[derive(Clone, Copy)]
pub enum Act {
    Begin(u8, Request),
    Call(u8, Request),
    Turn(u8),
    Run(u8),
    RunTo(u8, Row),
    Made,
    Reset,
    BeginReset,
    ResetTurn,
}

/// What that comes to.
#[derive(Clone, Copy, Debug, PartialEq, Eq)]
pub enum Came {
    Done,
    NotDone,
    InCall(u8),
    Turn(Turn),
    Made(Option<Row>),
}

/// A call that is begun, or the seat that is in one.
fn begun(answer: Result<(), InCall>) -> Came {
    match answer {
        Ok(()) => Came::Done,
        Err(InCall { seat }) => Came::InCall(seat),
    }
}

fn reset(answer: Result<(), ResetError>) -> Came {
    match answer {
        Ok(()) => Came::Done,
        Err(ResetError::CallBegun(seat)) => Came::InCall(seat),
        Err(ResetError::NoMemory) => Came::NotDone,
    }
}

impl Pool {
    fn does(&mut self, act: Act) -> Result<Came, Fail> {
        Ok(match act {
            Act::Begin(seat, request) => begun(self.machine.begin(seat, request)),
            Act::Call(seat, request) => Came::Turn(Turn::Done(self.call(seat, request)?)),
            Act::Turn(seat) => Came::Turn(self.turn(seat)?),
            Act::Run(seat) => Came::Turn(self.run(seat)?),
            Act::RunTo(seat, row) => {
                self.run_to(seat, row)?;
                Came::Done
            }
            Act::Made => Came::Made(self.machine.made()),
            Act::Reset => reset(self.machine.reset(self.alloc)),
            Act::BeginReset => begun(self.machine.begin_reset()),
            Act::ResetTurn if self.machine.reset_turn(self.alloc)? => Came::Done,
            Act::ResetTurn => Came::NotDone,
        })
    }

    /// Does one thing after another, each of which comes to what stands beside it.
    pub fn goes(&mut self, rt: &impl Abort, script: &[(Act, Came)]) -> Result<(), Fail> {
        for (number, (act, want)) in script.iter().enumerate() {
            assert_eq!(rt; self.does(*act)?, *want, "at line {number}");
        }
        Ok(())
    }
}
