//! The lines of several workers, in the order of the lines. This project's own.
ghost use Rattle.std.specs.Prelude.{◌≡◌};
ghost use Rattle.thread_calls.specs.Script.{IsScript};
ghost use Rattle.thread_lines.specs.Working.{Works};
ghost use Rattle.thread_starts.specs.Crews.{Each, threads_of};

use name_board::Board;
use pool_api::Table;
use pool_types::Raw;
use std::sync::Wait;
use thread_lines::{Gate, Worker, serve};
use trace_reader::TraceLine;

/// Runs the worker's next line, where it is this one.
fn serve_if<R: Raw, W: Wait, G: Gate>(
    rt: &W,
    pools: &[Option<Table<R>>],
    board: &Board,
    lines: &[TraceLine],
    gate: &G,
    place: usize,
    worker: &mut Worker<R>,
)
    requires stage { IsScript board.now.table.shared.key lines.now }
    requires works { Works R.out R.faults R.got R.passed pools.now board.now.table.shared.table_id lines.now worker.old }
    ensures works { Works R.out R.faults R.got R.passed pools.now board.now.table.shared.table_id lines.now worker.new }
    ensures thread { worker.new.thread ≡ worker.old.thread }
{
    if worker.next == place && place < lines.len() {
        serve(rt, pools, board, lines, gate, worker);
    }
}

/// Runs this line, for the worker whose next it is.
fn serve_each<R: Raw, W: Wait, G: Gate>(
    rt: &W,
    pools: &[Option<Table<R>>],
    board: &Board,
    lines: &[TraceLine],
    gate: &G,
    place: usize,
    workers: &mut [Worker<R>],
)
    requires stage { IsScript board.now.table.shared.key lines.now }
    requires works { Each (Works R.out R.faults R.got R.passed pools.now board.now.table.shared.table_id lines.now) workers.old }
    ensures works { Each (Works R.out R.faults R.got R.passed pools.now board.now.table.shared.table_id lines.now) workers.new }
    ensures threads { threads_of workers.new ≡ threads_of workers.old }
{
    for i in 0..workers.len() {
        serve_if(rt, pools, board, lines, gate, place, &mut workers[i]);
    }
}

/// Runs the lines of all these workers, in the order of the lines.
pub(crate) fn serve_in_turn<R: Raw, W: Wait, G: Gate>(
    rt: &W,
    pools: &[Option<Table<R>>],
    board: &Board,
    lines: &[TraceLine],
    gate: &G,
    workers: &mut [Worker<R>],
)
    requires stage { IsScript board.now.table.shared.key lines.now }
    requires works { Each (Works R.out R.faults R.got R.passed pools.now board.now.table.shared.table_id lines.now) workers.old }
    ensures works { Each (Works R.out R.faults R.got R.passed pools.now board.now.table.shared.table_id lines.now) workers.new }
    ensures threads { threads_of workers.new ≡ threads_of workers.old }
{
    for place in 0..lines.len() {
        serve_each(rt, pools, board, lines, gate, place, workers);
    }
}
