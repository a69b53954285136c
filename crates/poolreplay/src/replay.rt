//! The whole of a replay: from the words and the bytes that come in to the bytes that go out. This project's own.
ghost use Rattle.std.specs.Prelude.{◌≡◌, ◌≢◌, ◌<◌, ◌⊎◌, None, map, string_bytes};
ghost use Rattle.pool_types.specs.Causes.{Rose};
ghost use Rattle.replay_words.specs.Commands.{ReadsCommand};
ghost use Rattle.trace_gen.specs.Generated.{generated};
ghost use Rattle.poolreplay.specs.Replay.{IsComplete, IsDue, IsFrontWritten, IsReplayReply, IsSumReply, IsWritten};
ghost use Rattle.poolreplay.specs.Replay.{IsRunWhereSpelled};
ghost use Rattle.program_edge.specs.Outcome.{output_text};
ghost use Rattle.program_edge.specs.declared.outcome.Status.{Status};

use crate::replies::{reply_to, sum_up};
use pool_types::{ReadError, Sink, Source, read_all};
use program_edge::{Reply, Status, bad_words, silent, spoken, write_output};
use replay_words::{Command, read_command};
use std::alloc::{AllocError, Global};
use trace_gen::generated;

/// The status and the text that are due for the trace that the source holds.
fn reply_to_source<S: Source>(alloc: Global, moves: bool, source: &mut S) -> Reply
    ensures due { IsReplayReply moves (S.left source.old) (S.left source.new) result.status
        (output_text result.output) }
    ensures fault { result.status ≡ Status.ReadFault → Rose (S.faults source.old) (S.faults source.new) }
    ensures kept { result.status ≢ Status.ReadFault → S.faults source.new ≡ S.faults source.old }
{
    match read_all(alloc, source) {
        Ok(bytes) => reply_to(alloc, moves, bytes.as_slice()),
        Err(ReadError::TooLong) => silent(alloc, Status::TooLong),
        Err(ReadError::Fault) => silent(alloc, Status::ReadFault),
        Err(ReadError::NoMemory) => silent(alloc, Status::NoMemory),
    }
}

/// The status and the text that are due for a generated trace.
fn reply_to_gen(alloc: Global, seed: u64, threads: u8, calls: u32) -> Reply
    requires { 0 < threads }
    ensures { IsSumReply (generated seed threads calls) result.status (output_text result.output) }
{
    match generated(alloc, seed, threads, calls) {
        Ok(bytes) => sum_up(alloc, bytes.as_slice()),
        Err(AllocError) => silent(alloc, Status::NoMemory),
    }
}

/// The status and the text that are due. For words that are no command line nothing is read.
fn due<S: Source>(alloc: Global, words: &[String], source: &mut S) -> Reply
    ensures due { IsDue (map string_bytes words.now) (S.left source.old) (S.left source.new) result.status
        (output_text result.output) }
    ensures fault { result.status ≡ Status.ReadFault → Rose (S.faults source.old) (S.faults source.new) }
    ensures kept { result.status ≢ Status.ReadFault → S.faults source.new ≡ S.faults source.old }
{
    match read_command(alloc, words) {
        Ok(Some(Command::Replay { moves })) => reply_to_source(alloc, moves, source),
        Ok(
            Some(
                Command::Gen {
                    seed,
                    threads,
                    calls,
                },
            ),
        ) => reply_to_gen(alloc, seed, threads, calls),
        Ok(None) => spoken(alloc, Status::BadWords, bad_words(alloc)),
        Err(AllocError) => silent(alloc, Status::NoMemory),
    }
}

/// Replays the trace that the source holds, and writes its report; or runs a generated trace, and writes its summary.
///
/// The words are those after the program's name. The trace is read and checked whole before it is run, and the report is
/// made whole before it is written. `ReadFault` and `WriteFault` come only where the count of faults of the source or of
/// the sink rose, and each other status only where both counts stayed, so no fault is passed over. After `WriteFault` the
/// front of the text that was due with some status is written. The status that the words and the bytes want comes, but
/// for want of memory and for such faults: `StepsOut` exactly where a line of the run makes the most turns that a line
/// makes. A trace that the bytes spell is run, whatever its run comes to.
pub fn replay<S: Source, K: Sink>(
    alloc: Global,
    words: &[String],
    source: &mut S,
    sink: &mut K,
) -> Status
    ensures written { result ≢ Status.WriteFault →
        IsWritten (map string_bytes words.now) (S.left source.old) (S.left source.new) result (K.taken sink.old)
        (K.taken sink.new) }
    ensures part { result ≡ Status.WriteFault →
        IsFrontWritten (map string_bytes words.now) (S.left source.old) (S.left source.new) (K.taken sink.old)
        (K.taken sink.new) }
    ensures complete { IsComplete (map string_bytes words.now) (S.left source.old) result (S.faults source.old)
        (S.faults source.new) (K.faults sink.old) (K.faults sink.new) }
    ensures run { IsRunWhereSpelled (map string_bytes words.now) (S.left source.old) result (S.faults source.old)
        (S.faults source.new) (K.faults sink.old) (K.faults sink.new) }
    ensures refused { ReadsCommand (map string_bytes words.now) None →
        (result ≡ Status.BadWords) ⊎ (result ≡ Status.NoMemory) ⊎ (result ≡ Status.WriteFault) }
    ensures read { result ≡ Status.ReadFault → Rose (S.faults source.old) (S.faults source.new) }
    ensures read_on { result ≢ Status.ReadFault → S.faults source.new ≡ S.faults source.old }
    ensures write { result ≡ Status.WriteFault → Rose (K.faults sink.old) (K.faults sink.new) }
    ensures written_on { result ≢ Status.WriteFault → K.faults sink.new ≡ K.faults sink.old }
{
    let reply = due(alloc, words, source);
    match write_output(sink, &reply.output) {
        Ok(()) => reply.status,
        Err(_) => Status::WriteFault,
    }
}
