//! Replays a trace of pool calls from standard input, and reports on standard output what each call answered.
//!
//! Modules: `replay` (from the command's words and the trace's bytes to the status and the bytes that are written),
//! `replies` (what is due for a trace), `texts` (the text of a summary), `plain` and `run` (plain traces, and their lines,
//! one after another) and `laws` (that the bytes settle the text). Statuses, and what the user is told on standard
//! error, are those of `program_edge`.
#![tactic(auto)]

mod laws;
mod plain;
mod replay;
mod replies;
mod run;
#[cfg(test)]
mod tests;
mod texts;

use pool_types::{StandardSink, StandardSource};
use program_edge::{Kept, message, words_of};
use refusals::USAGE;
use std::process::ExitCode;

fn main(rt: HostRuntime) -> ExitCode {
    let words = words_of(&rt);
    let mut source = Kept::of(rt.alloc(), StandardSource::of(rt.reader()));
    let mut sink = StandardSink::of(rt.stdout());
    let status = replay::replay(rt.alloc(), words.as_slice(), &mut source, &mut sink);
    if let Ok(Some(text)) = message(rt.alloc(), USAGE, status, source.bytes()) {
        let _said = eprintln!(rt; "poolreplay: {text}");
    }
    ExitCode::from(status.number())
}
