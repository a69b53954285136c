//! Turns of a seat, to where a line stops. This project's own.
ghost use Rattle.std.specs.Prelude.{◌≡◌, IfOk};
ghost use Rattle.line_runs.specs.Pools.{with_machine};
ghost use Rattle.line_runs.specs.Turning.{is_row, reaches, stop_of, most_turns, turns_of, TurnsOn};

use crate::pool::TracePool;
use pool_types::{Answer, Awaited, Row, ScriptedRaw, Turn};
use pool_words::Key;
use run_report::Book;
use std::alloc::{AllocError, Global};
use step_core::PlainMachine;

/// To where a line makes turns: so many, to a step of this row that is made, or to the answer. Each also stops at an
/// answer and where a turn waits.
#[derive(Clone, Copy, Debug, PartialEq, Eq)]
pub enum Until {
    Turns(u32),
    Made(Row),
    Answer,
}

/// Why turns stopped.
#[derive(Clone, Copy, Debug, PartialEq, Eq)]
pub enum Stop {
    Answered(Answer),
    Waits(Awaited),
    Idle,
    Reached,
    /// So many turns were made, and none of these came.
    Spent,
}

/// Whether the step that was made is of this row.
fn is_row(row: Row, made: Option<Row>) -> bool
    ensures { result ≡ is_row row made }
{
    match made {
        Some(made) => made.name() == row.name(),
        None => false,
    }
}

impl Until {
    /// Whether the line stops where this was made.
    fn reaches(self, made: Option<Row>) -> bool
        ensures { result ≡ reaches self made }
    {
        match self {
            Until::Made(row) => is_row(row, made),
            Until::Turns(_) | Until::Answer => false,
        }
    }

    /// How many turns it makes at most, in a pool of this key.
    fn turns(self, key: &Key) -> u64
        ensures { result ≡ turns_of self key.now }
    {
        match self {
            Until::Turns(turns) => u64::from(turns),
            Until::Made(_) | Until::Answer => most_turns(key),
        }
    }

    /// Why the line stops at a turn that made this, if it does.
    fn stop_of(self, turn: Turn, made: Option<Row>) -> Option<Stop>
        ensures { result ≡ stop_of self turn made }
    {
        match turn {
            Turn::Done(answer) => Some(Stop::Answered(answer)),
            Turn::Waits(awaited) => Some(Stop::Waits(awaited)),
            Turn::Idle => Some(Stop::Idle),
            Turn::Stepped if self.reaches(made) => Some(Stop::Reached),
            Turn::Stepped => None,
        }
    }
}

/// The most turns that a line makes that asks for no number of them: 65536 for each granule of the span, and 64 more
/// times that.
#[tactic(auto, unfolding(crate::specs::Turning::most_turns))]
fn most_turns(key: &Key) -> u64
    ensures { result ≡ most_turns key.now }
{
    65536 * (u64::from(key.span) + 64)
}

/// Makes so many turns of a seat at most, to where the line stops, and writes what each moves.
fn turn_on(
    alloc: Global,
    machine: &mut PlainMachine<ScriptedRaw>,
    book: &mut Book,
    seat: u8,
    until: Until,
    turns: u64,
) -> Result<Stop, AllocError>
    ensures { IfOk result (λ stop. TurnsOn turns until seat machine.old book.old stop machine.new book.new) }
{
    for _ in 0..turns {
        let turn = machine.turn(alloc, seat)?;
        book.enter(machine.entries())?;
        match until.stop_of(turn, machine.made()) {
            Some(stop) => return Ok(stop),
            None => {}
        }
    }
    Ok(Stop::Spent)
}

impl TracePool {
    /// Makes turns of a seat to where the line stops.
    pub(crate) fn turns(
        &mut self,
        alloc: Global,
        book: &mut Book,
        seat: u8,
        until: Until,
    ) -> Result<Stop, AllocError>
        ensures machine { IfOk result (λ stop. TurnsOn (turns_of until self.old.machine.stock.key) until seat
            self.old.machine book.old stop self.new.machine book.new) }
        ensures pool { IfOk result (λ stop. self.new ≡ with_machine self.old self.new.machine) }
    {
        let turns = until.turns(self.machine.key());
        turn_on(alloc, &mut self.machine, book, seat, until, turns)
    }
}
