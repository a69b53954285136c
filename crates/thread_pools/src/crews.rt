//! A worker for each thread. This project's own.
ghost use Rattle.std.specs.Prelude.{◌≡◌, ◌≤◌, ◌<◌, ◌^◌, [], length, IfOk, OnOk, ℕ};
ghost use Rattle.name_board.specs.Board.{IsPen, first_view};
ghost use Rattle.thread_pools.specs.Crews.{AreWorkers};
ghost use Rattle.thread_pools.specs.Pools.{IsFreshAt, HasColumns};

use crate::columns::{Column, take_row};
use crossbeam_utils::CachePadded;
use name_board::{Board, Pen};
use pool_api::Table;
use pool_types::Raw;
use std::alloc::{AllocError, Global};
use thread_calls::count_own;
use thread_lines::Worker;
use trace_reader::TraceLine;

/// A worker for each thread, the last one first. There is room for all that a worker's calls come to.
pub fn make_workers<R: Raw>(
    alloc: Global,
    _pools: &[Option<Table<R>>],
    lines: &[TraceLine],
    board: &Board,
    pens: &mut Pen,
    columns: &mut [Column<R>],
    threads: u8,
) -> Result<Vec<Worker<R>>, AllocError>
    requires columns { HasColumns (IsFreshAt R.out R.faults R.got R.passed) threads _pools.now columns.old }
    requires pens { IsPen board.now.table.shared.table_id pens.old × (pens.old.me ≡ (first_view threads, [])) }
    ensures pens { pens.new.table_id ≡ pens.old.table_id }
    ensures spent { OnOk result (pens.new.me ≡ (first_view 0, [])) }
    ensures columns { OnOk result (HasColumns (IsFreshAt R.out R.faults R.got R.passed) 0 _pools.now columns.new) }
    ensures count { IfOk result (λ workers. length workers.items ≡ threads) }
    ensures workers { IfOk result (λ workers. AreWorkers R.out R.faults R.got R.passed _pools.now
        board.now.table.shared.table_id lines.now threads workers.items) }
{
    let mut workers = Vec::new(alloc);
    let mut left = threads;
    while left > 0 {
        left -= 1;
        let heaps = take_row(alloc, columns)?;
        let said = Vec::with_capacity(alloc, count_own(left, lines))?;
        workers.push(Worker {
            thread: left,
            next: 0,
            heaps,
            pen: board.split_off(pens, usize::from(left)),
            said: CachePadded::new(said),
        })?;
    }
    Ok(workers)
}
