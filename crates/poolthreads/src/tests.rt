//! A run's rows: what a trace reports, with which status and which pools. Expected texts come from the language's
//! description in `docs/trace.md`.
ghost use Rattle.std.specs.Prelude.{◌≤◌};

use crate::run_threads::{ThreadsRun, run_threads};
use pool_types::{MemorySink, MemorySource};
use program_edge::Status;
use std::alloc::{AllocError, Global};
use std::process::Abort;
use std::sync::Wait;
use std::sync::atomic::{AtomicU64, Ordering};
use std::test::Fail;
use std::thread::Threads;
use thread_lines::{Gate, OpenGate};

/// A trace whose report is one for every schedule: each slab is of one class.
const TWO_THREADS: &str =
    "threads A B\npool P0\npool P1 nofree\nA P0 x = malloc 8128\nB P0 free x\nA P0 y = malloc 8\n";

/// Its report.
const ONE_REPORT: &str = "2 made\n3 invalid-policy\n\
    4 got P0.R0+8256 8128 A#1\n5 freed\n6 got P0.R0+32760 8 A#2\n\
    total P0 regions 1 bytes 1048576 waste 0 head 256 rest 24376 private 0 public 8128 object 8 \
    large-head 0 slab-cache 0 cached 0 bin 1015808 queue 0 hand 0\nleak P0.R0+32760 8 A#2\nend\n";

/// A source of these bytes that moves at most so many a call, and fails at these.
fn source_of(
    alloc: Global,
    bytes: &[u8],
    most: usize,
    failing: &[u64],
) -> Result<MemorySource, AllocError>
    requires { 1 ≤ most }
{
    let bytes = Vec::from_slice(alloc, bytes)?;
    Ok(MemorySource::of(bytes, most, Vec::from_slice(alloc, failing)?))
}

/// A sink that takes at most so many bytes a call, and fails at these.
fn sink_of(alloc: Global, most: usize, failing: &[u64]) -> Result<MemorySink, AllocError>
    requires { 1 ≤ most }
{
    Ok(MemorySink::of(Vec::new(alloc), most, Vec::from_slice(alloc, failing)?))
}

/// Runs what the source has by threads that pass this gate, for one word.
fn run<W: Threads + Wait + Sync, G: Gate + Sync>(
    rt: &W,
    alloc: Global,
    word: &str,
    mut source: MemorySource,
    mut sink: MemorySink,
    gate: &G,
) -> Result<(ThreadsRun, Vec<u8>), AllocError> {
    let words = vec![in alloc; String::from_str(alloc, word)?]?;
    let ran = run_threads(rt, alloc, words.as_slice(), &mut source, &mut sink, gate);
    Ok((ran, Vec::from_slice(alloc, sink.bytes())?))
}

#[test]
fn one_report_comes_of_every_schedule(rt: HostRuntime) -> Result<(), Fail> {
    let alloc = rt.alloc();
    for most in [1, 4096] {
        let source = source_of(alloc, TWO_THREADS.as_bytes(), most, &[])?;
        let sink = sink_of(alloc, most, &[])?;
        let (ran, text) = run(&rt, alloc, "threads", source, sink, &OpenGate)?;
        assert_eq!(rt; ran.status, Status::Done);
        assert_eq!(rt; text.as_slice(), ONE_REPORT.as_bytes());
        assert_eq!(rt; ran.pools.len(), 2);
        assert!(rt; ran.pools[0].is_some());
        assert!(rt; ran.pools[1].is_none());
    }
    Ok(())
}

#[test]
fn the_trace_of_no_line_has_no_pool(rt: HostRuntime) -> Result<(), Fail> {
    let alloc = rt.alloc();
    let source = source_of(alloc, b"", 1, &[])?;
    let (ran, text) = run(
        &rt,
        alloc,
        "threads",
        source,
        sink_of(alloc, 4096, &[])?,
        &OpenGate,
    )?;
    assert_eq!(rt; ran.status, Status::Done);
    assert_eq!(rt; text.as_slice(), b"end\n".as_slice());
    assert!(rt; ran.pools.is_empty());
    Ok(())
}

/// Runs the trace, and sees that it ends so, with this text and no pool.
fn see_none<W: Abort + Threads + Wait + Sync>(
    rt: &W,
    alloc: Global,
    word: &str,
    trace: &str,
    want: Status,
    text: &str,
) -> Result<(), Fail> {
    let source = source_of(alloc, trace.as_bytes(), 4096, &[])?;
    let sink = sink_of(alloc, 4096, &[])?;
    let (ran, written) = run(rt, alloc, word, source, sink, &OpenGate)?;
    assert_eq!(rt; ran.status, want, "at {trace}");
    assert_eq!(rt; written.as_slice(), text.as_bytes(), "at {trace}");
    assert!(rt; ran.pools.is_empty(), "at {trace}");
    Ok(())
}

#[test]
fn lines_of_one_schedule_are_not_served(rt: HostRuntime) -> Result<(), Fail> {
    let alloc = rt.alloc();
    let lines = [
        "begin A P0 x = malloc 8",
        "step A P0 1",
        "upto A P0 M2",
        "finish A P0",
        "reset P0",
        "destroy",
    ];
    for line in lines {
        let trace = format!(in alloc; "threads A\npool P0\n{line}\n")?;
        let refused = Status::BadTrace { line: 3, kind: 12 };
        see_none(
            &rt,
            alloc,
            "threads",
            trace.as_str(),
            refused,
            "bad trace line 3 kind 12\n",
        )?;
    }
    let refused = Status::BadTrace { line: 1, kind: 1 };
    see_none(
        &rt,
        alloc,
        "threads",
        "Threads A\n",
        refused,
        "bad trace line 1 kind 1\n",
    )
}

#[test]
fn other_words_run_nothing(rt: HostRuntime) -> Result<(), Fail> {
    let alloc = rt.alloc();
    for word in ["replay", "thread", "threads ", ""] {
        see_none(
            &rt,
            alloc,
            word,
            TWO_THREADS,
            Status::BadWords,
            "bad words\n",
        )?;
    }
    Ok(())
}

#[test]
fn a_write_that_fails_leaves_the_front_and_no_pool(rt: HostRuntime) -> Result<(), Fail> {
    let alloc = rt.alloc();
    for (failing, front) in [(1, 0), (2, 40), (3, 80)] {
        let source = source_of(alloc, TWO_THREADS.as_bytes(), 4096, &[])?;
        let sink = sink_of(alloc, 40, &[failing])?;
        let (ran, text) = run(&rt, alloc, "threads", source, sink, &OpenGate)?;
        assert_eq!(rt; ran.status, Status::WriteFault, "at write {failing}");
        assert_eq!(rt; text.len(), front, "at write {failing}");
        assert!(rt; ONE_REPORT.as_bytes().starts_with(text.as_slice()));
        assert!(rt; ran.pools.is_empty());
    }
    Ok(())
}

#[test]
fn a_read_that_fails_runs_nothing(rt: HostRuntime) -> Result<(), Fail> {
    let alloc = rt.alloc();
    let source = source_of(alloc, TWO_THREADS.as_bytes(), 20, &[2])?;
    let sink = sink_of(alloc, 4096, &[])?;
    let (ran, text) = run(&rt, alloc, "threads", source, sink, &OpenGate)?;
    assert_eq!(rt; ran.status, Status::ReadFault);
    assert!(rt; text.is_empty());
    assert!(rt; ran.pools.is_empty());
    Ok(())
}

/// More looks than a thread makes that waits for another one.
const MOST_LOOKS: u64 = 100_000_000;

/// Holds each of two threads at its second call until the other one has come to its own.
#[derive(Drop)]
struct Both {
    first: AtomicU64,
    second: AtomicU64,
    missed: AtomicU64,
}

impl Both {
    /// Waits until the thread of this word has come.
    fn wait(&self, other: &AtomicU64) {
        for _ in 0..MOST_LOOKS {
            if other.load(Ordering::SeqCst) != 0 {
                return;
            }
        }
        self.missed.store(1, Ordering::SeqCst);
    }
}

impl Gate for Both {
    fn pass<W: Wait>(&self, _rt: &W, thread: u8, call: u32) {
        if call != 2 {
            return;
        }
        let (own, other) = if thread == 0 {
            (&self.first, &self.second)
        } else {
            (&self.second, &self.first)
        };
        own.store(1, Ordering::SeqCst);
        self.wait(other);
    }
}

#[test]
fn threads_run_beside_each_other(rt: HostRuntime) -> Result<(), Fail> {
    let alloc = rt.alloc();
    let trace = "threads A B\npool P0\nA P0 a = malloc 8\nA P0 b = malloc 8\nA P0 c = malloc 8\n\
        B P0 d = malloc 8\nB P0 e = malloc 8\nB P0 f = malloc 8\n";
    let gate = Both {
        first: AtomicU64::new(0),
        second: AtomicU64::new(0),
        missed: AtomicU64::new(0),
    };
    let source = source_of(alloc, trace.as_bytes(), 4096, &[])?;
    let sink = sink_of(alloc, 4096, &[])?;
    let (ran, _) = run(&rt, alloc, "threads", source, sink, &gate)?;
    assert_eq!(rt; ran.status, Status::Done);
    assert_eq!(rt; gate.missed.load(Ordering::SeqCst), 0);
    assert_eq!(rt; gate.first.load(Ordering::SeqCst), 1);
    assert_eq!(rt; gate.second.load(Ordering::SeqCst), 1);
    Ok(())
}
