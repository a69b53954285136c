//! The report of a replay: a text of one line for each thing that a trace's lines came to.
//!
//! A `Report` keeps the names of a trace's threads and the texts of its entries so far; `write_report` writes them, and
//! then `end`. The report is this project's own; `docs/trace.md` has its form.
//!
//! Modules: `entry` (what a report tells), `report` (the report and its writing), `text` (a text that is written in
//! place), `lines` (the text of an entry), and what lines are made of: `answers`, `moves`, `totals` and `pieces`.
#![tactic(auto)]

mod answers;
mod entry;
mod lines;
mod moves;
mod pieces;
mod report;
#[cfg(test)]
mod tests;
mod text;
mod totals;

pub use entry::{BinNumbers, Fate, ReportEntry};
pub use report::{NoMemory, Report, write_report};
