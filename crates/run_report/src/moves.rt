//! What a turn moved, as lines of the report. This project's own.
ghost use Rattle.std.specs.Prelude.{◌≡◌, OnOk};
ghost use Rattle.run_report.specs.Moves.{parts_noted, keeper_noted, entry_noted, entries_noted};
ghost use Rattle.run_report.specs.Moves.{moves_something, any_moves, with_number, numbered, entered};

use crate::book::Book;
use part_model::{Journaled, Part};
use pool_types::KeeperChange;
use report_text::ReportEntry;
use std::alloc::AllocError;

/// Whether the entry moves something.
fn moves_something(step: &Journaled) -> bool
    ensures { result ≡ moves_something step.now }
{
    !step.parts.is_empty() || step.book.is_some()
}

/// Whether one of the entries does.
fn any_moves(steps: &[Journaled]) -> bool
    ensures { result ≡ any_moves steps.now }
{
    for step in steps {
        if moves_something(step) {
            return true;
        }
    }
    false
}

impl Book {
    /// Writes these parts of the move of a number, one after another.
    fn note_parts(&mut self, number: u64, step: &Journaled) -> Result<(), AllocError>
        ensures { OnOk result (self.new ≡ parts_noted self.old number step.now step.now.parts.items) }
    {
        for part in step.parts.as_slice() {
            self.note(ReportEntry::Moved {
                number,
                seat: step.seat,
                row: step.row,
                part: *part,
            })?;
        }
        Ok(())
    }

    /// Writes the slab that goes to another keeper, if one does.
    fn note_keeper(&mut self, number: u64, step: &Journaled) -> Result<(), AllocError>
        ensures { OnOk result (self.new ≡ keeper_noted self.old number step.now step.now.book) }
    {
        match step.book {
            None => Ok(()),
            Some(change) => self.note(ReportEntry::KeeperMoved {
                number,
                seat: step.seat,
                row: step.row,
                change,
            }),
        }
    }

    /// Writes what an entry moves.
    fn note_entry(&mut self, number: u64, step: &Journaled) -> Result<(), AllocError>
        ensures { OnOk result (self.new ≡ entry_noted self.old number step.now) }
    {
        self.note_parts(number, step)?;
        self.note_keeper(number, step)
    }

    /// Writes what the entries of a step move, as the move of a number.
    fn note_entries(&mut self, number: u64, steps: &[Journaled]) -> Result<(), AllocError>
        ensures { OnOk result (self.new ≡ entries_noted self.old number steps.now) }
    {
        for step in steps {
            self.note_entry(number, step)?;
        }
        Ok(())
    }

    /// Writes what the entries of a step move, as the next move.
    fn note_next(&mut self, steps: &[Journaled]) -> Result<(), AllocError>
        ensures { OnOk result (self.new ≡ numbered self.old steps.now) }
    {
        let number = self.moved.saturating_add(1);
        self.moved = number;
        self.note_entries(number, steps)
    }

    /// Writes what the entries of a turn move, where moves are reported: all of them under one number, which counts
    /// the turns that move something.
    #[tactic(auto, unfolding(crate::specs::Moves::entered))]
    pub fn enter(&mut self, steps: &[Journaled]) -> Result<(), AllocError>
        ensures { OnOk result (self.new ≡ entered self.old steps.now) }
    {
        if self.moves && any_moves(steps) {
            self.note_next(steps)
        } else {
            Ok(())
        }
    }
}
