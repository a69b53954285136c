//! Each line of a trace. This project's own.
ghost use Rattle.std.specs.Prelude.{◌≡◌, length, IfOk, OnOk, Some, Ok};
ghost use Rattle.trace_calls.specs.Pools.{pool_limits, pool_policy};
ghost use Rattle.pool_types.specs.Policies.{Checks};
ghost use Rattle.trace_runs.specs.Lines.{deed_of, call_counted, OnPool, DeedRuns};
ghost use Rattle.trace_runs.specs.Making.{options_of, slot_of, Makes};
ghost use Rattle.trace_runs.specs.Slots.{SlotsDestroy};

use crate::scripts::script_of;
use crate::slots::{destroy_at, run_at};
use crate::state::Run;
use line_runs::{Came, LineAt, PoolLine, TracePool, Until};
use pool_types::CreateError;
use std::alloc::{AllocError, Global};
use trace_calls::{judge_pool, made_entry, pool_limits, pool_policy};
use trace_reader::{Act, PoolOption, Trace};

/// What a line does: nothing, where it names threads or answers of a callback; else it makes the pool of a number, does
/// something on a pool as the thread of a seat, or destroys a pool.
#[derive(Clone, Copy, Debug, PartialEq, Eq)]
pub enum Deed {
    Nothing,
    Make(u16),
    On(u16, u8, PoolLine),
    Destroy(u16),
}

/// What a line does.
pub(crate) fn deed_of(act: &Act) -> Deed
    ensures { result ≡ deed_of act.now }
{
    match *act {
        Act::Threads
        | Act::RawGet { .. }
        | Act::RawGetFail { .. }
        | Act::RawPutOk { .. }
        | Act::RawPutFail { .. } => Deed::Nothing,
        Act::Pool { pool } => Deed::Make(pool),
        Act::Call { thread, pool, call } => Deed::On(pool, thread, PoolLine::Call(call)),
        Act::Begin { thread, pool, call } => Deed::On(pool, thread, PoolLine::Begin(call)),
        Act::Step {
            thread,
            pool,
            turns,
        } => Deed::On(pool, thread, PoolLine::Go(Until::Turns(turns))),
        Act::UpTo { thread, pool, row } => {
            Deed::On(pool, thread, PoolLine::Go(Until::Made(row)))
        }
        Act::Finish { thread, pool } => Deed::On(pool, thread, PoolLine::Go(Until::Answer)),
        Act::Reset { pool } => Deed::On(pool, 0, PoolLine::Reset),
        Act::Destroy { pool } => Deed::Destroy(pool),
    }
}

/// The options of the pool of this number.
pub fn options_of(trace: &Trace, pool: u16) -> &[PoolOption]
    ensures { result.now ≡ options_of trace.now pool }
{
    match trace.pools().get(usize::from(pool)) {
        Some(options) => options.as_slice(),
        None => &[],
    }
}

/// The seats of each pool: one for each thread.
fn seats_of(trace: &Trace) -> u8
    ensures { result ≡ length trace.now.names.items }
{
    trace.names.len() as u8
}

/// How the making of the pool is judged.
pub fn judged(trace: &Trace, pool: u16) -> Result<(), CreateError>
    ensures { Checks (pool_policy (options_of trace.now pool))
        (pool_limits pool (length trace.now.names.items) (options_of trace.now pool)) result }
{
    judge_pool(pool, seats_of(trace), options_of(trace, pool))
}

/// The pool whose making is allowed.
fn made_pool(alloc: Global, trace: &Trace, pool: u16) -> Result<TracePool, AllocError>
    ensures { IfOk result (λ made. Some made ≡ slot_of trace.now pool (Ok tt)) }
{
    let options = options_of(trace, pool);
    let limits = pool_limits(pool, seats_of(trace), options);
    let raw = script_of(alloc, pool, trace.lines())?;
    TracePool::make(alloc, pool_policy(options), limits, raw)
}

/// The pool, where its making was judged so.
fn slot_of(
    alloc: Global,
    trace: &Trace,
    pool: u16,
    verdict: Result<(), CreateError>,
) -> Result<Option<TracePool>, AllocError>
    ensures { IfOk result (λ slot. slot ≡ slot_of trace.now pool verdict) }
{
    match verdict {
        Ok(()) => Ok(Some(made_pool(alloc, trace, pool)?)),
        Err(_) => Ok(None),
    }
}

impl Run {
    /// Makes the next pool, where the checks of its making allow it.
    fn make(&mut self, alloc: Global, trace: &Trace, line: u32, pool: u16) -> Result<(), AllocError>
        ensures { OnOk result (Makes trace.now line pool self.old self.new) }
    {
        let verdict = judged(trace, pool);
        let slot = slot_of(alloc, trace, pool, verdict)?;
        self.pools.push(slot)?;
        self.book.note_some(made_entry(line, verdict))
    }

    /// A call that a line makes whole is counted.
    fn count_call(&mut self, deed: PoolLine)
        ensures { self.new ≡ call_counted deed self.old }
    {
        if let PoolLine::Call(_) = deed {
            self.book.call();
        }
    }

    /// Does something on the pool of this number.
    fn on_pool(
        &mut self,
        alloc: Global,
        number: u16,
        at: LineAt,
        deed: PoolLine,
    ) -> Result<Came, AllocError>
        ensures { IfOk result (λ came. OnPool number deed at self.old came self.new) }
    {
        let came = run_at(
            alloc,
            self.pools.as_mut_slice(),
            number,
            &mut self.book,
            &mut self.places,
            at,
            deed,
        )?;
        Ok(came)
    }

    /// Destroys the pool of this number.
    fn destroy(&mut self, alloc: Global, line: u32, number: u16) -> Result<(), AllocError>
        ensures places { OnOk result (self.new.places ≡ self.old.places) }
        ensures pools { OnOk result (SlotsDestroy line number self.old.pools self.old.book self.new.pools self.new.book) }
    {
        destroy_at(
            alloc,
            self.pools.as_mut_slice(),
            number,
            &mut self.book,
            line,
        )
    }

    /// Does what a line does.
    pub(crate) fn run(
        &mut self,
        alloc: Global,
        trace: &Trace,
        line: u32,
        deed: Deed,
    ) -> Result<Came, AllocError>
        ensures { IfOk result (λ came. DeedRuns trace.now line deed self.old came self.new) }
    {
        match deed {
            Deed::Nothing => Ok(Came::InTime),
            Deed::Make(pool) => {
                self.make(alloc, trace, line, pool)?;
                Ok(Came::InTime)
            }
            Deed::On(pool, seat, deed) => {
                self.count_call(deed);
                self.on_pool(alloc, pool, LineAt { line, seat }, deed)
            }
            Deed::Destroy(pool) => {
                self.destroy(alloc, line, pool)?;
                Ok(Came::InTime)
            }
        }
    }
}
