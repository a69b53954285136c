//! A whole trace, run by threads. This project's own.
ghost use Rattle.std.specs.Prelude.{◌≡◌, [], IfOk, OnOk};
ghost use Rattle.name_board.specs.Board.{IsKnown, IsPen, first_view};
ghost use Rattle.thread_calls.specs.Script.{IsScript};
ghost use Rattle.thread_lines.specs.Heaps.{IsRested};
ghost use Rattle.thread_pools.specs.Pools.{HasColumns, IsFreshAt};
ghost use Rattle.thread_runs.specs.Gathering.{HaveRows, said_by};
ghost use Rattle.thread_runs.specs.Runs.{IsRan, IsServed, IsTold};
ghost use Rattle.thread_runs.specs.Telling.{AreSaid};
ghost use Rattle.thread_runs.specs.Traces.{IsRead, IsWithin};

use crate::ending::add_ends;
use crate::gathering::{gather, quiet_all};
use crate::making::{Pools, made_pools};
use crate::telling::add_lines;
use name_board::{Board, Pen};
use pool_api::Table;
use pool_types::{Raw, ScriptedRaw};
use quiet_pool::QuietPool;
use report_text::{NoMemory, Report};
use std::alloc::{AllocError, Global};
use std::sync::Wait;
use std::thread::Threads;
use thread_calls::{Said, names_of};
use thread_lines::Gate;
use thread_pools::{Column, make_workers};
use thread_starts::run_workers;
use trace_reader::{Trace, TraceLine};

/// The report of a trace that was run, and its pools, by their numbers; a pool that was not made is None.
#[derive(Drop)]
pub struct Ran {
    pub report: Report,
    pub pools: Vec<Option<QuietPool<ScriptedRaw>>>,
}

/// What each thread's calls came to, and the pools.
#[derive(Drop)]
struct Served {
    said: Vec<Vec<Said>>,
    pools: Vec<Option<QuietPool<ScriptedRaw>>>,
}

/// Makes a worker for each thread, runs the lines of all, and takes the workers apart.
fn run_lines<R: Raw + Send + Sync, W: Threads + Wait + Sync, G: Gate + Sync>(
    rt: &W,
    alloc: Global,
    tables: &[Option<Table<R>>],
    lines: &[TraceLine],
    board: &Board,
    pens: &mut Pen,
    columns: &mut [Column<R>],
    threads: u8,
    gate: &G,
) -> Result<Vec<Vec<Said>>, AllocError>
    requires script { IsScript board.now.table.shared.key lines.now }
    requires columns { HasColumns (IsFreshAt R.out R.faults R.got R.passed) threads tables.now columns.old }
    requires pens { IsPen board.now.table.shared.table_id pens.old × (pens.old.me ≡ (first_view threads, [])) }
    ensures pens { pens.new.table_id ≡ pens.old.table_id }
    ensures columns { OnOk result (HasColumns (IsRested R.out R.faults R.got R.passed) threads tables.now columns.new) }
    ensures rows { IfOk result (λ all. HaveRows (IsKnown pens.new.me.0.known) tables.now lines.now columns.new
        all.items
        threads) }
{
    let workers = make_workers(alloc, tables, lines, board, pens, columns, threads)?;
    let done = run_workers(rt, alloc, tables, board, lines, gate, workers)?;
    gather(alloc, tables, lines, board, pens, columns, done)
}

/// Runs the lines of all threads.
fn serve_threads<W: Threads + Wait + Sync, G: Gate + Sync>(
    rt: &W,
    alloc: Global,
    trace: &Trace,
    gate: &G,
) -> Result<Served, AllocError>
    requires read { IsRead trace.now }
    ensures served { IfOk result (λ served. IsServed trace.now (said_by served.said.items) served.pools.items) }
    ensures said { IfOk result (λ served. AreSaid trace.now served.said.items) }
{
    let threads = trace.names.len();
    let lines = trace.lines();
    let names = names_of(alloc, lines, threads)?;
    let (board, mut pens) = Board::make(alloc, &names)?;
    let Pools {
        tables,
        rests,
        mut columns,
    } = made_pools(alloc, trace)?;
    let said = run_lines(
        rt,
        alloc,
        tables.as_slice(),
        lines,
        &board,
        &mut pens,
        columns.as_mut_slice(),
        threads as u8,
        gate,
    )?;
    board.settle(&mut pens);
    let pools = quiet_all(alloc, tables, rests, columns)?;
    Ok(Served { said, pools })
}

/// The report of what the lines came to, and of the pools at the end.
fn report_of(
    alloc: Global,
    trace: &Trace,
    said: &[Vec<Said>],
    pools: &mut [Option<QuietPool<ScriptedRaw>>],
) -> Result<Report, AllocError>
    requires within { IsWithin trace.now }
    requires said { AreSaid trace.now said.now }
    ensures report { IfOk result (λ report. IsTold trace.now (said_by said.now) pools.old report) }
    ensures same { pools.new ≡ pools.old }
{
    let mut report = match Report::make(alloc, trace) {
        Ok(report) => report,
        Err(NoMemory) => return Err(AllocError),
    };
    add_lines(alloc, &mut report, trace, said)?;
    add_ends(alloc, &mut report, pools)?;
    Ok(report)
}

/// Runs the lines of each thread of a trace that was read, in a thread of its own where one can be started. All pools
/// are
/// made first, those whose making is allowed. The report tells what the lines came to, in the order of the lines, and
/// then what each pool has. The error is a want of memory.
pub fn run_by_threads<W: Threads + Wait + Sync, G: Gate + Sync>(
    rt: &W,
    alloc: Global,
    trace: &Trace,
    gate: &G,
) -> Result<Ran, AllocError>
    requires read { IsRead trace.now }
    ensures { IfOk result (λ ran. IsRan trace.now ran.report ran.pools.items) }
{
    let Served { said, mut pools } = serve_threads(rt, alloc, trace, gate)?;
    let report = report_of(alloc, trace, said.as_slice(), pools.as_mut_slice())?;
    Ok(Ran { report, pools })
}
