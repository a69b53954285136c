//! What is due for a trace. This project's own.
ghost use Rattle.std.specs.Prelude.{◌≡◌, [], Ok};
ghost use Rattle.trace_reader.specs.declared.acts.Forms.{Forms};
ghost use Rattle.trace_reader.specs.Text.{ReadsTrace};
ghost use Rattle.program_edge.specs.Outcome.{output_text};
ghost use Rattle.poolthreads.specs.Threads.{IsReply};

use pool_types::ScriptedRaw;
use program_edge::{Output, Reply, Status, refused, silent};
use quiet_pool::QuietPool;
use std::alloc::{AllocError, Global};
use std::sync::Wait;
use std::thread::Threads;
use thread_lines::Gate;
use thread_runs::{Ran, run_by_threads};
use trace_reader::{Forms, Trace, TraceRefused, read_trace};

/// What is due, and the pools of a trace that was run.
#[derive(Drop)]
pub struct Served {
    pub reply: Reply,
    pub pools: Vec<Option<QuietPool<ScriptedRaw>>>,
}

/// What is due where no trace was run.
pub fn without_pools(alloc: Global, reply: Reply) -> Served
    ensures reply { result.reply ≡ reply }
    ensures pools { result.pools.items ≡ [] }
{
    Served {
        reply,
        pools: Vec::new(alloc),
    }
}

/// The report of a trace that was read, and its pools.
fn serve_trace<W: Threads + Wait + Sync, G: Gate + Sync>(
    rt: &W,
    alloc: Global,
    bytes: &[u8],
    trace: &Trace,
    gate: &G,
) -> Served
    requires { ReadsTrace Forms.Threads bytes.now (Ok trace.now) }
    ensures { IsReply bytes.now result.reply.status (output_text result.reply.output) result.pools.items }
{
    match run_by_threads(rt, alloc, trace, gate) {
        Ok(Ran { report, pools }) => Served {
            reply: Reply {
                status: Status::Done,
                output: Output::Whole(report),
            },
            pools,
        },
        Err(AllocError) => without_pools(alloc, silent(alloc, Status::NoMemory)),
    }
}

/// What is due for bytes that were read.
pub fn serve<W: Threads + Wait + Sync, G: Gate + Sync>(
    rt: &W,
    alloc: Global,
    bytes: &[u8],
    gate: &G,
) -> Served
    ensures { IsReply bytes.now result.reply.status (output_text result.reply.output) result.pools.items }
{
    match read_trace(alloc, bytes, Forms::Threads) {
        Ok(trace) => serve_trace(rt, alloc, bytes, &trace, gate),
        Err(TraceRefused::Bad(error)) => without_pools(alloc, refused(alloc, error)),
        Err(TraceRefused::NoMemory) => without_pools(alloc, silent(alloc, Status::NoMemory)),
    }
}
