//! Runs a trace of plain calls from standard input, each named thread's lines on a thread of its own, and reports on
//! standard output what each call answered.
//!
//! Modules: `run_threads` (from the command's words and the trace's bytes to the status, the bytes that are written and
//! the pools), `replies` (what is due for a trace) and `laws` (that words and bytes want one status). Statuses, and
//! what the user is told on standard error, are those of `program_edge`.
#![tactic(auto)]

mod laws;
mod replies;
mod run_threads;
#[cfg(test)]
mod tests;

use crate::run_threads::{ThreadsRun, run_threads};
use pool_types::{ScriptedRaw, StandardSink, StandardSource};
use program_edge::{Kept, message, words_of};
use quiet_pool::QuietPool;
use std::process::ExitCode;
use thread_lines::OpenGate;

/// How the program is called.
const USAGE: &str = "call it as `poolthreads threads < TRACE`; docs/trace.md has the language";

/// Gives the regions of each pool back.
fn destroy_all(pools: Vec<Option<QuietPool<ScriptedRaw>>>) {
    for slot in pools {
        if let Some(pool) = slot {
            let _destroyed = pool.destroy();
        }
    }
}

fn main(rt: HostRuntime) -> ExitCode {
    let words = words_of(&rt);
    let mut source = Kept::of(rt.alloc(), StandardSource::of(rt.reader()));
    let mut sink = StandardSink::of(rt.stdout());
    let ThreadsRun { status, pools } = run_threads(
        &rt,
        rt.alloc(),
        words.as_slice(),
        &mut source,
        &mut sink,
        &OpenGate,
    );
    destroy_all(pools);
    if let Ok(Some(text)) = message(rt.alloc(), USAGE, status, source.bytes()) {
        let _said = eprintln!(rt; "poolthreads: {text}");
    }
    ExitCode::from(status.number())
}
