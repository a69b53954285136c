//! What comes back of the workers. This project's own.
ghost use Rattle.std.specs.Prelude.{◌≡◌, length, IfOk, OnOk};
ghost use Rattle.name_board.specs.Board.{IsKnown, IsPen};
ghost use Rattle.thread_lines.specs.Heaps.{IsRested};
ghost use Rattle.thread_pools.specs.Pools.{HasColumns};
ghost use Rattle.thread_starts.specs.Crews.{Each, IsDone, threads_of};
ghost use Rattle.thread_runs.specs.Gathering.{AreColumns, AreInTurn, AreQuiet, HaveRows, IsColumn, IsQuietOf};
ghost use Rattle.thread_runs.specs.Making.{HasRests, RestIn};

use name_board::{Board, Pen};
use pool_api::{Heap, Rest, Table, unite};
use pool_types::Raw;
use quiet_pool::{QuietPool, quiet};
use std::alloc::{AllocError, Global};
use thread_calls::Said;
use thread_lines::Worker;
use thread_pools::{Column, put_row};
use trace_reader::TraceLine;

/// Takes the workers apart, from the first thread on: their heaps go back to those of their pools, what they know of
/// the
/// board goes to the spare pen, and what their calls came to is kept.
pub(crate) fn gather<R: Raw>(
    alloc: Global,
    _tables: &[Option<Table<R>>],
    _lines: &[TraceLine],
    board: &Board,
    pens: &mut Pen,
    columns: &mut [Column<R>],
    mut workers: Vec<Worker<R>>,
) -> Result<Vec<Vec<Said>>, AllocError>
    requires pens { IsPen board.now.table.shared.table_id pens.old }
    requires columns { HasColumns (IsRested R.out R.faults R.got R.passed) 0 _tables.now columns.old }
    requires done { Each (IsDone R.out R.faults R.got R.passed _tables.now board.now.table.shared.table_id _lines.now)
        workers.items }
    requires threads { AreInTurn (length workers.items) (threads_of workers.items) }
    ensures pens { pens.new.table_id ≡ pens.old.table_id }
    ensures columns { OnOk result (HasColumns (IsRested R.out R.faults R.got R.passed) (length workers.items)
        _tables.now
        columns.new) }
    ensures rows { IfOk result (λ all. HaveRows (IsKnown pens.new.me.0.known) _tables.now _lines.now columns.new
        all.items
        (length workers.items)) }
{
    let mut all = Vec::new(alloc);
    while let Some(worker) = workers.pop() {
        let Worker {
            thread: _,
            next: _,
            heaps,
            pen,
            said,
        } = worker;
        board.join_in(pens, pen);
        put_row(columns, heaps)?;
        all.push(said.into_inner())?;
    }
    Ok(all)
}

/// The pool of this table and of what was left of it, quiet, where it was made. Its heaps are all there, and in no
/// call.
fn quieted<R: Raw>(
    table: Option<Table<R>>,
    rest: Option<Rest<R>>,
    heaps: Vec<Heap<R>>,
) -> Option<QuietPool<R>>
    requires rest { RestIn table rest }
    requires heaps { IsColumn R.out R.faults R.got R.passed table heaps.items }
    ensures { IsQuietOf table heaps.items result }
{
    let table = table?;
    let rest = rest?;
    match quiet(unite(table, rest), heaps) {
        Ok(pool) => Some(pool),
        Err(_refused) => unreachable!(),
    }
}

/// The pools, quiet, each with its heaps.
pub(crate) fn quiet_all<R: Raw>(
    alloc: Global,
    mut tables: Vec<Option<Table<R>>>,
    mut rests: Vec<Option<Rest<R>>>,
    mut columns: Vec<Column<R>>,
) -> Result<Vec<Option<QuietPool<R>>>, AllocError>
    requires rests { HasRests tables.items rests.items }
    requires columns { AreColumns R.out R.faults R.got R.passed tables.items columns.items }
    ensures { IfOk result (λ all. AreQuiet tables.items columns.items all.items) }
{
    let mut all = Vec::new(alloc);
    while let Some(column) = columns.pop() {
        let table = tables.pop().flatten();
        let rest = rests.pop().flatten();
        all.insert(0, quieted(table, rest, column.heaps))?;
    }
    Ok(all)
}
