//! The whole of a run by threads: from the words and the bytes that come in to the bytes that go out. This project's
//! own.
ghost use Rattle.std.specs.Prelude.{◌≡◌, ◌≢◌, ◌⊎◌, [], map, string_bytes, true};
ghost use Rattle.pool_types.specs.Causes.{Rose};
ghost use Rattle.program_edge.specs.Outcome.{output_text};
ghost use Rattle.program_edge.specs.declared.outcome.Status.{Status};
ghost use Rattle.poolthreads.specs.Threads.{IsCommand, IsComplete, IsDue, IsFrontWritten, IsNoCommand};
ghost use Rattle.poolthreads.specs.Threads.{IsSourceReply, IsWritten};

use crate::replies::{Served, serve, without_pools};
use pool_types::{ReadError, ScriptedRaw, Sink, Source, read_all};
use program_edge::{Status, bad_words, silent, spoken, write_output};
use quiet_pool::QuietPool;
use std::alloc::Global;
use std::sync::Wait;
use std::thread::Threads;
use thread_lines::Gate;

/// How a run ended, and with `Done` its pools, by the pools' numbers; a pool that was not made is None.
#[derive(Drop)]
pub struct ThreadsRun {
    pub status: Status,
    pub pools: Vec<Option<QuietPool<ScriptedRaw>>>,
}

/// Whether the words are the command line: the one word `threads`.
fn is_command(words: &[String]) -> bool
    ensures yes { result ≡ true → IsCommand (map string_bytes words.now) }
    ensures no { result ≢ true → IsNoCommand (map string_bytes words.now) }
{
    match words {
        [word] => word.as_str() == "threads",
        _ => false,
    }
}

/// What is due for the trace that the source holds.
fn serve_source<S: Source, W: Threads + Wait + Sync, G: Gate + Sync>(
    rt: &W,
    alloc: Global,
    source: &mut S,
    gate: &G,
) -> Served
    ensures due { IsSourceReply (S.left source.old) (S.left source.new) result.reply.status
        (output_text result.reply.output) result.pools.items }
    ensures fault { result.reply.status ≡ Status.ReadFault → Rose (S.faults source.old) (S.faults source.new) }
    ensures kept { result.reply.status ≢ Status.ReadFault → S.faults source.new ≡ S.faults source.old }
{
    match read_all(alloc, source) {
        Ok(bytes) => serve(rt, alloc, bytes.as_slice(), gate),
        Err(ReadError::TooLong) => without_pools(alloc, silent(alloc, Status::TooLong)),
        Err(ReadError::Fault) => without_pools(alloc, silent(alloc, Status::ReadFault)),
        Err(ReadError::NoMemory) => without_pools(alloc, silent(alloc, Status::NoMemory)),
    }
}

/// What is due. For words that are no command line nothing is read.
fn due<S: Source, W: Threads + Wait + Sync, G: Gate + Sync>(
    rt: &W,
    alloc: Global,
    words: &[String],
    source: &mut S,
    gate: &G,
) -> Served
    ensures due { IsDue (map string_bytes words.now) (S.left source.old) (S.left source.new) result.reply.status
        (output_text result.reply.output) result.pools.items }
    ensures fault { result.reply.status ≡ Status.ReadFault → Rose (S.faults source.old) (S.faults source.new) }
    ensures kept { result.reply.status ≢ Status.ReadFault → S.faults source.new ≡ S.faults source.old }
{
    if is_command(words) {
        serve_source(rt, alloc, source, gate)
    } else {
        without_pools(alloc, spoken(alloc, Status::BadWords, bad_words(alloc)))
    }
}

/// Runs the trace that the source holds, each named thread's lines on a thread of its own, and writes its report.
///
/// The words are those after the program's name. The trace is read and checked whole before any line runs, and the
/// report is made whole before it is written. `ReadFault` and `WriteFault` come only where the count of faults of the
/// source or of the sink rose, and each other status only where both counts stayed, so no fault is passed over. After
/// `WriteFault` the front of the text that was due with some status is written. The status that the words and the bytes
/// want comes, but for want of memory and for such faults: `Done` exactly where the bytes spell a trace of lines that
/// threads run. With any status but `Done` there are no pools. `StepsOut` never comes. It returns where no call waits
/// for ever.
pub fn run_threads<S: Source, K: Sink, W: Threads + Wait + Sync, G: Gate + Sync>(
    rt: &W,
    alloc: Global,
    words: &[String],
    source: &mut S,
    sink: &mut K,
    gate: &G,
) -> ThreadsRun
    ensures written { result.status ≢ Status.WriteFault →
        IsWritten (map string_bytes words.now) (S.left source.old) (S.left source.new) result.status result.pools.items
        (K.taken sink.old) (K.taken sink.new) }
    ensures part { result.status ≡ Status.WriteFault →
        IsFrontWritten ScriptedRaw (map string_bytes words.now) (S.left source.old) (S.left source.new)
        (K.taken sink.old) (K.taken sink.new) }
    ensures complete { IsComplete (map string_bytes words.now) (S.left source.old) result.status (S.faults source.old)
        (S.faults source.new) (K.faults sink.old) (K.faults sink.new) }
    ensures pools { result.status ≢ Status.Done → result.pools.items ≡ [] }
    ensures refused { IsNoCommand (map string_bytes words.now) → (result.status ≡ Status.BadWords)
        ⊎ (result.status ≡ Status.NoMemory) ⊎ (result.status ≡ Status.WriteFault) }
    ensures read { result.status ≡ Status.ReadFault → Rose (S.faults source.old) (S.faults source.new) }
    ensures read_on { result.status ≢ Status.ReadFault → S.faults source.new ≡ S.faults source.old }
    ensures write { result.status ≡ Status.WriteFault → Rose (K.faults sink.old) (K.faults sink.new) }
    ensures written_on { result.status ≢ Status.WriteFault → K.faults sink.new ≡ K.faults sink.old }
{
    let Served { reply, pools } = due(rt, alloc, words, source, gate);
    match write_output(sink, &reply.output) {
        Ok(()) => ThreadsRun {
            status: reply.status,
            pools,
        },
        Err(_) => ThreadsRun {
            status: Status::WriteFault,
            pools: Vec::new(alloc),
        },
    }
}
