//! A line that resets a pool. This project's own.
ghost use Rattle.std.specs.Prelude.{◌≡◌, OnOk};
ghost use Rattle.line_runs.specs.Resetting.{ResetsOn, most_reset_turns, Resets};

use crate::pool::TracePool;
use pool_types::{InCall, ScriptedRaw};
use report_text::ReportEntry;
use run_report::Book;
use std::alloc::{AllocError, Global};
use step_core::PlainMachine;

/// More turns than a reset has.
const MOST_RESET_TURNS: u64 = u64::MAX;

/// Makes the turns of a reset, so many at most, and writes what each moves.
fn reset_on(
    alloc: Global,
    machine: &mut PlainMachine<ScriptedRaw>,
    book: &mut Book,
    turns: u64,
) -> Result<(), AllocError>
    ensures { OnOk result (ResetsOn turns machine.old book.old machine.new book.new) }
{
    for _ in 0..turns {
        let done = machine.reset_turn(alloc)?;
        book.enter(machine.entries())?;
        if done {
            return Ok(());
        }
    }
    Err(AllocError)
}

impl TracePool {
    /// Resets the pool, and writes that it was reset or which thread is in a call.
    #[tactic(auto, unfolding(crate::specs::Resetting::most_reset_turns))]
    pub fn reset(&mut self, alloc: Global, book: &mut Book, line: u32) -> Result<(), AllocError>
        ensures { OnOk result (Resets line self.old book.old self.new book.new) }
    {
        match self.machine.begin_reset() {
            Ok(()) => {
                reset_on(alloc, &mut self.machine, book, MOST_RESET_TURNS)?;
                book.note(ReportEntry::Reset { line })
            }
            Err(InCall { seat }) => book.note(ReportEntry::CallOpenOf { line, seat }),
        }
    }
}
