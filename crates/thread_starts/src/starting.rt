//! A thread for each worker. This project's own.
ghost use Rattle.std.specs.Prelude.{◌≡◌, ◌++◌, ◌∷◌, [], IfOk, IfSome, IfNone, length};
ghost use denote.Param.Send.{IsSend, IsSync};
ghost use Rattle.thread_calls.specs.Script.{IsScript};
ghost use Rattle.thread_lines.specs.Working.{Works};
ghost use Rattle.thread_starts.specs.Crews.{Each, IsDone, IsCrew, IsNext, Joins, JoinsLast, threads_of};

use crate::turns::serve_in_turn;
use name_board::Board;
use pool_api::Table;
use pool_types::Raw;
use std::alloc::{AllocError, Global};
use std::sync::Wait;
use std::sync::atomic::{AtomicBool, Ordering};
use std::thread;
use std::thread::{Promise, Threads};
use thread_lines::{Gate, Worker, serve_all};
use trace_reader::TraceLine;

/// That a thread gives back the worker of this number, which has run its lines up to some place.
#[derive(Drop)]
struct Serves<'a, R: Raw> {
    pools: &'a [Option<Table<R>>],
    board: &'a Board,
    lines: &'a [TraceLine],
    thread: u8,
}

impl<'a, R: Raw> Promise<Worker<R>> for Serves<'a, R> {
    ghost use Rattle.std.specs.Prelude.{◌≡◌};
    ghost use Rattle.thread_lines.specs.Working.{Works};

    ghost kept_by = { λ p w. Works R.out R.faults R.got R.passed p.pools.now p.board.now.table.shared.table_id p.lines.now w
        × (w.thread ≡ p.thread) };
}

/// The workers that are done, and those for which no thread could be started.
#[derive(Drop)]
pub struct Crew<R: Raw> {
    done: Vec<Worker<R>>,
    stayed: Vec<Worker<R>>,
}

/// A worker, and the others.
struct Next<R: Raw> {
    worker: Worker<R>,
    rest: Vec<Worker<R>>,
}

/// The last of the workers, and the others.
fn next_of<R: Raw>(
    _pools: &[Option<Table<R>>],
    _board: &Board,
    _lines: &[TraceLine],
    mut workers: Vec<Worker<R>>,
) -> Option<Next<R>>
    requires { Each (Works R.out R.faults R.got R.passed _pools.now _board.now.table.shared.table_id _lines.now) workers.items }
    ensures some { IfSome result (IsNext R.out R.faults R.got R.passed _pools.now _board.now.table.shared.table_id _lines.now
        workers.items) }
    ensures none { IfNone result (workers.items ≡ []) }
{
    let worker = workers.pop()?;
    Some(Next {
        worker,
        rest: workers,
    })
}

/// Runs all lines of a worker, unless it is to stay with its caller.
fn serve_or_stay<R: Raw, W: Wait, G: Gate>(
    rt: &W,
    pools: &[Option<Table<R>>],
    board: &Board,
    lines: &[TraceLine],
    gate: &G,
    stays: &AtomicBool,
    worker: Worker<R>,
) -> Worker<R>
    requires stage { IsScript board.now.table.shared.key lines.now }
    requires works { Works R.out R.faults R.got R.passed pools.now board.now.table.shared.table_id lines.now worker }
    ensures works { Works R.out R.faults R.got R.passed pools.now board.now.table.shared.table_id lines.now result }
    ensures thread { result.thread ≡ worker.thread }
{
    if stays.load(Ordering::SeqCst) {
        return worker;
    }
    serve_all(rt, pools, board, lines, gate, worker)
}

/// Runs what lines the worker has left, and puts it among those that are done.
fn finish<R: Raw, W: Wait, G: Gate>(
    rt: &W,
    pools: &[Option<Table<R>>],
    board: &Board,
    lines: &[TraceLine],
    gate: &G,
    mut crew: Crew<R>,
    worker: Worker<R>,
) -> Result<Crew<R>, AllocError>
    requires stage { IsScript board.now.table.shared.key lines.now }
    requires works { Works R.out R.faults R.got R.passed pools.now board.now.table.shared.table_id lines.now worker }
    requires crew { IsCrew R.out R.faults R.got R.passed pools.now board.now.table.shared.table_id lines.now crew }
    ensures { IfOk result (λ all. Joins R.out R.faults R.got R.passed pools.now board.now.table.shared.table_id lines.now
        (worker.thread ∷ []) crew all) }
{
    let worker = serve_all(rt, pools, board, lines, gate, worker);
    crew.done.push(worker)?;
    Ok(crew)
}

/// The worker stays.
fn stay<R: Raw>(mut crew: Crew<R>, worker: Worker<R>) -> Result<Crew<R>, AllocError>
    ensures { IfOk result (λ all. (all.done ≡ crew.done) × (all.stayed.items ≡ crew.stayed.items ++ worker ∷ [])) }
{
    crew.stayed.push(worker)?;
    Ok(crew)
}

/// Runs what lines the last worker that stayed has left, and puts it among those that are done.
fn finish_last<R: Raw, W: Wait, G: Gate>(
    rt: &W,
    pools: &[Option<Table<R>>],
    board: &Board,
    lines: &[TraceLine],
    gate: &G,
    mut crew: Crew<R>,
) -> Result<Crew<R>, AllocError>
    requires stage { IsScript board.now.table.shared.key lines.now }
    requires crew { IsCrew R.out R.faults R.got R.passed pools.now board.now.table.shared.table_id lines.now crew }
    ensures { IfOk result (λ all. JoinsLast R.out R.faults R.got R.passed pools.now board.now.table.shared.table_id lines.now
        crew all) }
{
    match crew.stayed.pop() {
        Some(worker) => finish(rt, pools, board, lines, gate, crew, worker),
        None => Ok(crew),
    }
}

/// Starts a thread for each waiting worker, the last of them first, runs the lines of those that could not be started,
/// and takes the workers back.
fn run_crew<R: Raw + Send + Sync, W: Threads + Wait + Sync, G: Gate + Sync>(
    rt: &W,
    pools: &[Option<Table<R>>],
    board: &Board,
    lines: &[TraceLine],
    gate: &G,
    waiting: Vec<Worker<R>>,
    mut crew: Crew<R>,
) -> Result<Crew<R>, AllocError>
    requires stage { IsScript board.now.table.shared.key lines.now }
    requires waiting { Each (Works R.out R.faults R.got R.passed pools.now board.now.table.shared.table_id lines.now) waiting.items }
    requires crew { IsCrew R.out R.faults R.got R.passed pools.now board.now.table.shared.table_id lines.now crew }
    ensures { IfOk result (λ all. Joins R.out R.faults R.got R.passed pools.now board.now.table.shared.table_id lines.now
        (threads_of waiting.items) crew all) }
{
    let Some(Next { worker, rest }) = next_of(pools, board, lines, waiting) else {
        serve_in_turn(rt, pools, board, lines, gate, crew.stayed.as_mut_slice());
        return Ok(crew);
    };
    let stays = AtomicBool::new(false);
    let flag = &stays;
    thread::scope(
        thread::scope_env(),
        rt,
        |scope| -> Result<Crew<R>, AllocError>
            requires { IsSync W.row × IsSync G.row × IsSend R.row × IsSync R.row
                × IsScript board.now.table.shared.key lines.now
                × Works R.out R.faults R.got R.passed pools.now board.now.table.shared.table_id lines.now worker
                × Each (Works R.out R.faults R.got R.passed pools.now board.now.table.shared.table_id lines.now) rest.items
                × IsCrew R.out R.faults R.got R.passed pools.now board.now.table.shared.table_id lines.now crew }
            ensures { IfOk result (Joins R.out R.faults R.got R.passed pools.entry.now
                board.entry.now.table.shared.table_id lines.entry.now (threads_of rest.items ++ worker.thread ∷ []) crew) }
        {
            let promise = Serves {
                pools,
                board,
                lines,
                thread: worker.thread,
            };
            match scope.spawn_with(
                promise,
                move || -> Worker<R>
                    requires { IsScript board.now.table.shared.key lines.now
                        × Works R.out R.faults R.got R.passed pools.now board.now.table.shared.table_id lines.now worker }
                    ensures { Works R.out R.faults R.got R.passed pools.entry.now board.entry.now.table.shared.table_id
                        lines.entry.now result × (result.thread ≡ worker.thread) }
                { serve_or_stay(rt, pools, board, lines, gate, flag, worker) },
            ) {
                Ok(child) => {
                    let crew = run_crew(rt, pools, board, lines, gate, rest, crew)?;
                    finish(rt, pools, board, lines, gate, crew, child.join(rt))
                }
                Err(refused) => {
                    flag.store(true, Ordering::SeqCst);
                    let crew = stay(crew, (refused.value)())?;
                    let crew = run_crew(rt, pools, board, lines, gate, rest, crew)?;
                    finish_last(rt, pools, board, lines, gate, crew)
                }
            }
        },
    )
}

/// Runs the lines of all workers, each in a thread of its own, or in this one where no thread can be started. The room
/// that is wanted is taken before the first is started. They come back in their order.
pub fn run_workers<R: Raw + Send + Sync, W: Threads + Wait + Sync, G: Gate + Sync>(
    rt: &W,
    alloc: Global,
    pools: &[Option<Table<R>>],
    board: &Board,
    lines: &[TraceLine],
    gate: &G,
    workers: Vec<Worker<R>>,
) -> Result<Vec<Worker<R>>, AllocError>
    requires stage { IsScript board.now.table.shared.key lines.now }
    requires works { Each (Works R.out R.faults R.got R.passed pools.now board.now.table.shared.table_id lines.now) workers.items }
    ensures done { IfOk result (λ done. Each (IsDone R.out R.faults R.got R.passed pools.now board.now.table.shared.table_id
        lines.now) done.items) }
    ensures threads { IfOk result (λ done. threads_of done.items ≡ threads_of workers.items) }
{
    let crew = Crew {
        done: Vec::with_capacity(alloc, workers.len())?,
        stayed: Vec::with_capacity(alloc, workers.len())?,
    };
    let crew = run_crew(rt, pools, board, lines, gate, workers, crew)?;
    Ok(crew.done)
}
