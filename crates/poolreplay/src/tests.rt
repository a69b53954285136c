//! The program's rows: what each trace reports, and with which status. Expected texts come from the language's
//! description in `docs/trace.md`.
ghost use Rattle.std.specs.Prelude.{◌≤◌};

mod frees;

use crate::replay::replay;
use pool_types::{MemorySink, MemorySource};
use program_edge::Status;
use std::alloc::{AllocError, Global};
use std::io::{self, Write};
use std::process::Abort;
use std::test::Fail;

/// The report of one malloc of 100 bytes.
const ONE_MALLOC: &str = "2 made\n3 got P0.R0+16272 112 A#1\n\
    total P0 regions 1 bytes 1048576 waste 0 head 144 rest 16128 private 0 public 0 object 112 \
    large-head 0 slab-cache 0 cached 0 bin 1032192 queue 0 hand 0\nleak P0.R0+16272 112 A#1\nend\n";

/// The report of a pool without calls.
const NO_CALL: &str = "2 made\n\
    total P0 regions 0 bytes 0 waste 0 head 0 rest 0 private 0 public 0 object 0 \
    large-head 0 slab-cache 0 cached 0 bin 0 queue 0 hand 0\nend\n";

/// The trace of one malloc of 100 bytes.
const TRACE: &str = "threads A\npool P0 fixed\nA P0 x = malloc 100\n";

/// A source of these bytes that moves at most so many a call.
fn source_of(alloc: Global, bytes: &[u8], most: usize) -> Result<MemorySource, AllocError>
    requires { 1 ≤ most }
{
    let bytes = Vec::from_slice(alloc, bytes)?;
    Ok(MemorySource::of(bytes, most, Vec::new(alloc)))
}

/// Replays what the source has, for the words `replay` and those behind it.
fn run(
    alloc: Global,
    more: &[&str],
    mut source: MemorySource,
    mut sink: MemorySink,
) -> Result<(Status, Vec<u8>), AllocError> {
    let mut words = vec![in alloc; String::from_str(alloc, "replay")?]?;
    for word in more {
        words.push(String::from_str(alloc, word)?)?;
    }
    let status = replay(alloc, words.as_slice(), &mut source, &mut sink);
    Ok((status, Vec::from_slice(alloc, sink.bytes())?))
}

/// A sink that takes at most so many bytes a call, and fails at these calls.
fn sink_of(alloc: Global, most: usize, failing: &[u64]) -> Result<MemorySink, AllocError>
    requires { 1 ≤ most }
{
    let failing = Vec::from_slice(alloc, failing)?;
    Ok(MemorySink::of(Vec::new(alloc), most, failing))
}

#[test]
fn whole_traces_and_their_prefixes_are_reported(rt: HostRuntime) -> Result<(), Fail> {
    let alloc = rt.alloc();
    let cases = [
        ("", "end\n"),
        ("threads A\n", "end\n"),
        ("threads A\npool P0 fixed\n", NO_CALL),
        (TRACE, ONE_MALLOC),
    ];
    for most in [1, 4096] {
        for (trace, want) in cases {
            let source = source_of(alloc, trace.as_bytes(), most)?;
            let (status, text) = run(alloc, &[], source, sink_of(alloc, most, &[])?)?;
            assert_eq!(rt; status, Status::Done, "at {trace}");
            assert_eq!(rt; text.as_slice(), want.as_bytes(), "at {trace}");
        }
    }
    Ok(())
}

#[test]
fn the_size_decides_place_and_usable_bytes(rt: HostRuntime) -> Result<(), Fail> {
    let alloc = rt.alloc();
    let cases = [
        (
            "A1_ P0 b = malloc 0\n",
            "2 made\n3 got P0.R0+16376 8 A1_#1\n",
        ),
        (
            "A1_ P0 b2 = malloc 8128\n",
            "2 made\n3 got P0.R0+8256 8128 A1_#1\n",
        ),
        (
            "A1_ P0 b = malloc 1025\n",
            "2 made\n3 got P0.R0+14592 1792 A1_#1\n",
        ),
    ];
    for (line, want) in cases {
        let trace = format!(in alloc; "threads A1_\npool P0 fixed\n{line}")?;
        let source = source_of(alloc, trace.as_bytes(), 4096)?;
        let (status, text) = run(alloc, &[], source, sink_of(alloc, 4096, &[])?)?;
        assert_eq!(rt; status, Status::Done, "at {line}");
        assert!(rt; text.starts_with(want.as_bytes()), "at {line}");
    }
    Ok(())
}

/// Two objects of the largest class a slab.
const THREE_MALLOCS: &str = "2 made\n\
    3 got P0.R0+8256 8128 A#1\n4 got P0.R0+128 8128 A#2\n5 got P0.R0+24640 8128 A#3\n\
    total P0 regions 1 bytes 1048576 waste 0 head 256 rest 8128 private 0 public 0 object 24384 \
    large-head 0 slab-cache 0 cached 0 bin 1015808 queue 0 hand 0\n\
    leak P0.R0+128 8128 A#2\nleak P0.R0+8256 8128 A#1\nleak P0.R0+24640 8128 A#3\nend\n";

/// The trace of so many mallocs of the largest class.
fn mallocs(alloc: Global, count: u32) -> io::Result<Vec<u8>> {
    let mut trace = Vec::from_slice(alloc, b"threads A\npool P0 fixed\n")?;
    for number in 0..count {
        writeln!(trace, "A P0 x{number} = malloc 8128")?;
    }
    Ok(trace)
}

/// Replays so many mallocs of the largest class.
fn run_mallocs(alloc: Global, count: u32) -> io::Result<(Status, Vec<u8>)> {
    let source = MemorySource::of(mallocs(alloc, count)?, 4096, Vec::new(alloc));
    Ok(run(alloc, &[], source, sink_of(alloc, 4096, &[])?)?)
}

#[test]
fn objects_of_a_class_fill_slab_after_slab(rt: HostRuntime) -> Result<(), Fail> {
    let (status, text) = run_mallocs(rt.alloc(), 3)?;
    assert_eq!(rt; status, Status::Done);
    assert_eq!(rt; text.as_slice(), THREE_MALLOCS.as_bytes());
    Ok(())
}

#[test]
fn a_pool_whose_slabs_are_all_in_use_answers_null(rt: HostRuntime) -> Result<(), Fail> {
    let (status, text) = run_mallocs(rt.alloc(), 129)?;
    assert_eq!(rt; status, Status::Done);
    let last = "\n130 got P0.R0+1032320 8128 A#128\n131 null no-fit 1..511 0\ntotal P0 ";
    let text = String::from_utf8(text).ok().ok_or("no text")?;
    assert!(rt; text.contains(last));
    Ok(())
}

/// The report of a pool that is not made, for it would have no thread.
const NO_THREAD: &str = "1 bad-limits seats\nend\n";

#[test]
fn a_pool_without_threads_is_not_made(rt: HostRuntime) -> Result<(), Fail> {
    let alloc = rt.alloc();
    let source = source_of(alloc, b"pool P0 fixed\n", 4096)?;
    let (status, text) = run(alloc, &[], source, sink_of(alloc, 4096, &[])?)?;
    assert_eq!(rt; status, Status::Done);
    assert_eq!(rt; text.as_slice(), NO_THREAD.as_bytes());
    assert_eq!(rt; status.number(), 0);
    Ok(())
}

/// The report of one malloc of 100 bytes in line 6, behind the pool in line 4.
const SKIPPED_BEFORE: &str = "4 made\n6 got P0.R0+16272 112 A#1\n\
    total P0 regions 1 bytes 1048576 waste 0 head 144 rest 16128 private 0 public 0 object 112 \
    large-head 0 slab-cache 0 cached 0 bin 1032192 queue 0 hand 0\nleak P0.R0+16272 112 A#1\nend\n";

#[test]
fn lines_that_are_skipped_are_counted(rt: HostRuntime) -> Result<(), Fail> {
    let alloc = rt.alloc();
    let cases = [
        ("\n", "end\n"),
        ("#\n\n# threads A\n", "end\n"),
        (
            "# one thread\nthreads A\n\npool P0 fixed\n#A P0 x = malloc 1\nA P0 x = malloc 100\n\n",
            SKIPPED_BEFORE,
        ),
        ("\npool P0 fixed\n", "2 bad-limits seats\nend\n"),
    ];
    for (trace, want) in cases {
        let source = source_of(alloc, trace.as_bytes(), 4096)?;
        let (status, text) = run(alloc, &[], source, sink_of(alloc, 4096, &[])?)?;
        assert_eq!(rt; status, Status::Done, "at {trace}");
        assert_eq!(rt; text.as_slice(), want.as_bytes(), "at {trace}");
    }
    Ok(())
}

/// Replays the trace, and sees that this line of it is refused as of this kind.
fn see_refused(
    rt: &impl Abort,
    alloc: Global,
    trace: &str,
    line: u32,
    kind: u8,
) -> Result<(), Fail> {
    let source = source_of(alloc, trace.as_bytes(), 4096)?;
    let (status, text) = run(alloc, &[], source, sink_of(alloc, 4096, &[])?)?;
    let want = format!(in alloc; "bad trace line {line} kind {kind}\n")?;
    assert_eq!(rt; status, Status::BadTrace { line, kind }, "at {trace}");
    assert_eq!(rt; text.as_slice(), want.as_bytes(), "at {trace}");
    Ok(())
}

#[test]
fn the_first_line_that_is_wrong_is_refused(rt: HostRuntime) -> Result<(), Fail> {
    let alloc = rt.alloc();
    let cases = [
        ("threads a\n", 1, 1),
        ("threads A\npool P1 fixed\n", 2, 7),
        ("threads A\npool P0 fixed\nB P0 x = malloc 1\n", 3, 4),
        ("threads A\npool P0 fixed\nA P0 null = malloc 1\n", 3, 1),
        ("threads A\npool P0 fixed\nA P0 x = malloc 01\n", 3, 2),
        ("threads A\npool P0 fixed\nA P0 free x\n", 3, 5),
        ("threads A\npool P0 fixed\nA P0 exit x\n", 3, 1),
        ("threads A\npool P0 fixed\nA P0 x = malloc 100", 3, 11),
        ("# a comment", 1, 11),
    ];
    for (trace, line, kind) in cases {
        see_refused(&rt, alloc, trace, line, kind)?;
    }
    Ok(())
}

#[test]
fn each_kind_of_refusal_is_reported(rt: HostRuntime) -> Result<(), Fail> {
    let alloc = rt.alloc();
    let cases = [
        ("A P0 y = malloc 8 8\n", 1),
        ("A P0 y = malloc 00\n", 2),
        ("A P1 y = malloc 8\n", 3),
        ("C P0 y = malloc 8\n", 4),
        ("A P0 free y\n", 5),
        ("A P0 x = malloc 8\n", 6),
        ("pool P2\n", 7),
        ("threads C\n", 8),
        ("A P0 y = malloc 8", 11),
    ];
    for (line, kind) in cases {
        let trace = format!(in alloc; "threads A\npool P0 fixed\nA P0 x = malloc 8\n{line}")?;
        see_refused(&rt, alloc, trace.as_str(), 4, kind)?;
    }
    Ok(())
}

/// A trace of so many empty lines.
fn empty_lines(alloc: Global, count: usize) -> Result<MemorySource, AllocError> {
    Ok(MemorySource::of(vec![in alloc; b'\n'; count]?, 4096, Vec::new(alloc)))
}

#[test]
fn too_many_lines_and_too_long_ones_are_refused(rt: HostRuntime) -> Result<(), Fail> {
    let alloc = rt.alloc();
    let (status, text) = run(
        alloc,
        &[],
        empty_lines(alloc, 65536)?,
        sink_of(alloc, 4096, &[])?,
    )?;
    assert_eq!(rt; status, Status::Done);
    assert_eq!(rt; text.as_slice(), b"end\n".as_slice());
    let (status, text) = run(
        alloc,
        &[],
        empty_lines(alloc, 65537)?,
        sink_of(alloc, 4096, &[])?,
    )?;
    assert_eq!(rt;
        status,
        Status::BadTrace {
            line: 65537,
            kind: 9
        }
    );
    assert_eq!(rt;
        text.as_slice(),
        b"bad trace line 65537 kind 9\n".as_slice()
    );
    let mut line = vec![in alloc; b'#'; 1025]?;
    line.push(b'\n')?;
    let source = MemorySource::of(line, 4096, Vec::new(alloc));
    let (status, text) = run(alloc, &[], source, sink_of(alloc, 4096, &[])?)?;
    assert_eq!(rt; status, Status::BadTrace { line: 1, kind: 10 });
    assert_eq!(rt; text.as_slice(), b"bad trace line 1 kind 10\n".as_slice());
    Ok(())
}

#[test]
fn other_words_read_nothing(rt: HostRuntime) -> Result<(), Fail> {
    let alloc = rt.alloc();
    let sink = sink_of(alloc, 4096, &[])?;
    let (status, text) = run(alloc, &["now"], source_of(alloc, b"", 1)?, sink)?;
    assert_eq!(rt; status, Status::BadWords);
    assert_eq!(rt; text.as_slice(), b"bad words\n".as_slice());
    let mut source = source_of(alloc, b"", 1)?;
    let mut sink = sink_of(alloc, 4096, &[])?;
    let status = replay(alloc, &[], &mut source, &mut sink);
    assert_eq!(rt; status, Status::BadWords);
    assert_eq!(rt; sink.bytes(), b"bad words\n".as_slice());
    Ok(())
}

#[test]
fn a_write_that_fails_leaves_the_front_of_the_text(rt: HostRuntime) -> Result<(), Fail> {
    let alloc = rt.alloc();
    let source = source_of(alloc, TRACE.as_bytes(), 4096)?;
    let (status, text) = run(alloc, &[], source, sink_of(alloc, 10, &[2])?)?;
    assert_eq!(rt; status, Status::WriteFault);
    assert_eq!(rt; text.as_slice(), b"2 made\n3 g".as_slice());
    Ok(())
}

#[test]
fn a_failure_at_each_write_leaves_a_front(rt: HostRuntime) -> Result<(), Fail> {
    let alloc = rt.alloc();
    let source = source_of(alloc, TRACE.as_bytes(), 4096)?;
    let (_, whole) = run(alloc, &[], source, sink_of(alloc, 4096, &[])?)?;
    for (failing, front) in [(1, 0), (2, 40), (3, 80), (4, 120), (5, 160), (6, 200)] {
        let source = source_of(alloc, TRACE.as_bytes(), 4096)?;
        let (status, text) = run(alloc, &[], source, sink_of(alloc, 40, &[failing])?)?;
        assert_eq!(rt; status, Status::WriteFault, "at write {failing}");
        assert_eq!(rt; text.len(), front, "at write {failing}");
        assert!(rt; whole.starts_with(text.as_slice()), "at write {failing}");
    }
    Ok(())
}

#[test]
fn a_read_that_fails_ends_the_replay(rt: HostRuntime) -> Result<(), Fail> {
    let alloc = rt.alloc();
    let bytes = Vec::from_slice(alloc, TRACE.as_bytes())?;
    let source = MemorySource::of(bytes, 20, vec![in alloc; 2]?);
    let (status, text) = run(alloc, &[], source, sink_of(alloc, 4096, &[])?)?;
    assert_eq!(rt; status, Status::ReadFault);
    assert!(rt; text.is_empty());
    Ok(())
}

#[test]
fn a_trace_has_at_most_4194304_bytes(rt: HostRuntime) -> Result<(), Fail> {
    let alloc = rt.alloc();
    let refused = Status::BadTrace { line: 1, kind: 11 };
    for (length, want) in [(4194304, refused), (4194305, Status::TooLong)] {
        let bytes = vec![in alloc; b'a'; length]?;
        let source = MemorySource::of(bytes, 4194305, Vec::new(alloc));
        let (status, text) = run(alloc, &[], source, sink_of(alloc, 4096, &[])?)?;
        assert_eq!(rt; status, want, "at {length} bytes");
        assert_eq!(rt; text.is_empty(), want == Status::TooLong);
    }
    Ok(())
}
