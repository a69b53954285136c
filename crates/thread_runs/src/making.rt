//! The pools of a trace, and their heaps. This project's own.
ghost use Rattle.std.specs.Prelude.{◌≡◌, ◌≤◌, Some, length, IfOk};
ghost use Rattle.line_runs.specs.Turning.{out_of, faults_of};
ghost use Rattle.pool_types.specs.Limits.{most_pools};
ghost use Rattle.pool_types.specs.Policies.{IsAllowed};
ghost use Rattle.pool_types.specs.Script.{Gets, Puts};
ghost use Rattle.thread_pools.specs.Pools.{ColumnOf, HasColumns, IsFreshAt};
ghost use Rattle.thread_runs.specs.Making.{HasRests, RestIn, stand_plan};
ghost use Rattle.thread_runs.specs.Traces.{AreMadeAs, IsMadeAs, plan_of, threads_in};

use pool_api::{Heap, Rest, Table, create, part};
use pool_types::{CreateError, Raw, ScriptedRaw};
use std::alloc::{AllocError, Global};
use thread_pools::Column;
use trace_calls::{pool_limits, pool_policy};
use trace_reader::Trace;
use trace_runs::{judged, options_of, script_of};

/// A pool of a trace, parted from its table, if it was made, and its heaps, by the threads' numbers; a pool that was
/// not
/// made has none.
#[derive(Drop)]
struct Made<R: Raw> {
    table: Option<Table<R>>,
    rest: Option<Rest<R>>,
    heaps: Vec<Heap<R>>,
}

/// The pools of a trace, by their numbers: the tables, what is left of each pool, and the heaps of each.
#[derive(Drop)]
pub(crate) struct Pools<R: Raw> {
    pub(crate) tables: Vec<Option<Table<R>>>,
    pub(crate) rests: Vec<Option<Rest<R>>>,
    pub(crate) columns: Vec<Column<R>>,
}

/// The pool, whose making is allowed.
fn allowed_pool(alloc: Global, trace: &Trace, pool: u16) -> Result<Made<ScriptedRaw>, AllocError>
    requires { IsAllowed (plan_of trace.now pool).policy (plan_of trace.now pool).limits }
    ensures made { IfOk result (λ made. stand_plan made.table ≡ Some (plan_of trace.now pool)) }
    ensures rest { IfOk result (λ made. RestIn made.table made.rest) }
    ensures heaps { IfOk result (λ made. ColumnOf (IsFreshAt out_of faults_of Gets Puts) (threads_in trace.now)
        made.table
        made.heaps.items) }
{
    let options = options_of(trace, pool);
    let limits = pool_limits(pool, trace.names.len() as u8, options);
    let raw = script_of(alloc, pool, trace.lines())?;
    match create(alloc, pool_policy(options), limits, raw) {
        Ok((pool, heaps)) => {
            let (table, rest) = part(pool);
            Ok(Made {
                table: Some(table),
                rest: Some(rest),
                heaps,
            })
        }
        Err(CreateError::NoMemory) => Err(AllocError),
        Err(_) => unreachable!(),
    }
}

/// The pool of this number, where the checks of its making allow it.
fn made_pool(alloc: Global, trace: &Trace, pool: u16) -> Result<Made<ScriptedRaw>, AllocError>
    ensures made { IfOk result (λ made. IsMadeAs trace.now pool (stand_plan made.table)) }
    ensures rest { IfOk result (λ made. RestIn made.table made.rest) }
    ensures heaps { IfOk result (λ made. ColumnOf (IsFreshAt out_of faults_of Gets Puts) (threads_in trace.now)
        made.table
        made.heaps.items) }
{
    match judged(trace, pool) {
        Ok(()) => allowed_pool(alloc, trace, pool),
        Err(_) => Ok(Made {
            table: None,
            rest: None,
            heaps: Vec::new(alloc),
        }),
    }
}

/// Makes the pools of a trace, in the order of their numbers. The error is a want of memory.
pub(crate) fn made_pools(alloc: Global, trace: &Trace) -> Result<Pools<ScriptedRaw>, AllocError>
    requires { length trace.now.pools.items ≤ most_pools }
    ensures made { IfOk result (λ pools. AreMadeAs stand_plan trace.now pools.tables.items) }
    ensures rests { IfOk result (λ pools. HasRests pools.tables.items pools.rests.items) }
    ensures heaps { IfOk result (λ pools. HasColumns (IsFreshAt out_of faults_of Gets Puts) (threads_in trace.now)
        pools.tables.items pools.columns.items) }
{
    let mut tables = Vec::new(alloc);
    let mut rests = Vec::new(alloc);
    let mut columns = Vec::new(alloc);
    for number in 0..trace.pools().len() {
        let Made { table, rest, heaps } = made_pool(alloc, trace, (number % 65536) as u16)?;
        tables.push(table)?;
        rests.push(rest)?;
        columns.push(Column { heaps })?;
    }
    Ok(Pools {
        tables,
        rests,
        columns,
    })
}
