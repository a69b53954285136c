//! Whether a trace is plain, so that whole calls over lists serve it. This project's own.
ghost use Rattle.std.specs.Prelude.{◌≡◌, length};
ghost use Rattle.std.specs.List.{list_all};
ghost use Rattle.poolreplay.specs.Plain.{are_plain_lines, are_pool_lines, begins_plainly, is_first_pool, is_fixed_alone};
ghost use Rattle.poolreplay.specs.Plain.{is_fixed_pool, is_plain, is_plain_act, is_plain_call, is_plain_line};

use arrayvec::ArrayVec;
use trace_reader::{Act, PoolOption, Trace, TraceCall, TraceLine};

/// The greatest size of a malloc of a plain trace.
const MOST_PLAIN_SIZE: u64 = 8128;

/// Whether the call is a malloc of at most 8128 bytes, a free, or a question of a place.
fn is_plain_call(call: &TraceCall) -> bool
    ensures { result ≡ is_plain_call call.now }
{
    match call {
        TraceCall::Malloc { size, .. } => *size <= MOST_PLAIN_SIZE,
        TraceCall::Free { .. } | TraceCall::Msize { .. } | TraceCall::Identify { .. } => true,
        TraceCall::Aligned { .. }
        | TraceCall::Realloc { .. }
        | TraceCall::AlignedRealloc { .. }
        | TraceCall::Exit => false,
    }
}

/// Whether the line makes such a call, whole, by the first thread on the first pool.
fn is_plain_line(line: &TraceLine) -> bool
    ensures { result ≡ is_plain_line line.now }
{
    match &line.act {
        Act::Call { thread, pool, call } => *thread == 0 && *pool == 0 && is_plain_call(call),
        _ => false,
    }
}

/// Whether the line makes the first pool.
fn is_first_pool(act: &Act) -> bool
    ensures { result ≡ is_first_pool act.now }
{
    match act {
        Act::Pool { pool } => *pool == 0,
        _ => false,
    }
}

/// Whether the options are the one option `fixed`.
fn is_fixed_alone(options: &[PoolOption]) -> bool
    ensures { result ≡ is_fixed_alone options.now }
{
    match options {
        [PoolOption::Fixed] => true,
        _ => false,
    }
}

/// Whether there is one pool, with that option.
fn is_fixed_pool(pools: &[ArrayVec<PoolOption, 9>]) -> bool
    ensures { result ≡ is_fixed_pool pools.now }
{
    match pools {
        [options] => is_fixed_alone(options.as_slice()),
        _ => false,
    }
}

/// Whether each line is plain.
fn are_plain(lines: &[TraceLine]) -> bool
    ensures { result ≡ list_all is_plain_line lines.now }
{
    lines.iter().all(|line| is_plain_line(line))
}

/// Whether the lines behind the one that names the thread are none, or the pool's line and then plain calls.
fn are_pool_lines(pools: &[ArrayVec<PoolOption, 9>], lines: &[TraceLine]) -> bool
    ensures { result ≡ are_pool_lines pools.now lines.now }
{
    match lines {
        [] => pools.is_empty(),
        [line, calls @ ..] => {
            is_first_pool(&line.act) && is_fixed_pool(pools) && are_plain(calls)
        }
    }
}

/// Whether the first line names the one thread, or is the pool's line where there is no thread.
fn begins_plainly(
    threads: usize,
    pools: &[ArrayVec<PoolOption, 9>],
    first: &Act,
    lines: &[TraceLine],
) -> bool
    ensures { result ≡ begins_plainly threads pools.now first.now lines.now }
{
    match first {
        Act::Threads => threads == 1 && are_pool_lines(pools, lines),
        Act::Pool { pool } => {
            threads == 0 && *pool == 0 && is_fixed_pool(pools) && lines.is_empty()
        }
        _ => false,
    }
}

/// Whether the trace is plain.
#[tactic(auto, unfolding(crate::specs::Plain::is_plain))]
pub fn is_plain(trace: &Trace) -> bool
    ensures { result ≡ is_plain trace.now }
{
    let threads = trace.names.len();
    match trace.lines() {
        [] => threads == 0 && trace.pools.is_empty(),
        [first, lines @ ..] => begins_plainly(threads, trace.pools(), &first.act, lines),
    }
}
