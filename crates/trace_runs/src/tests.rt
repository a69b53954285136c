//! Whole traces. Expected texts come from the language's description in `docs/trace.md`.

use crate::{Summary, run_lines, sum_lines};
use pool_types::MemorySink;
use report_text::write_report;
use std::alloc::{AllocError, Global};
use std::process::Abort;
use std::test::Fail;
use trace_reader::{Forms, Trace, read_trace};

/// The trace of these lines.
fn trace_of(alloc: Global, text: &str) -> Result<Trace, Fail> {
    Ok(
        read_trace(alloc, text.as_bytes(), Forms::All)
            .ok()
            .ok_or("a trace")?,
    )
}

/// The bytes of the report of these lines.
fn report_of(alloc: Global, text: &str, moves: bool) -> Result<Vec<u8>, Fail> {
    let trace = trace_of(alloc, text)?;
    let report = run_lines(alloc, &trace, moves).ok().ok_or("a report")?;
    let mut sink = MemorySink::of(Vec::new(alloc), 4096, Vec::new(alloc));
    let _ = write_report(&mut sink, &report);
    Ok(Vec::from_slice(alloc, sink.bytes())?)
}

#[test]
fn two_threads_are_stopped_in_the_middle(rt: HostRuntime) -> Result<(), Fail> {
    let text =
        "threads A B\npool P0\nA P0 x = malloc 8128\nA P0 y = malloc 8128\nbegin B P0 free x\n\
        upto B P0 P3\nA P0 z = malloc 8128\nA P0 exit\nfinish B P0\nfinish A P0\n";
    let want = "2 made\n3 got P0.R0+8256 8128 A#1\n4 got P0.R0+128 8128 A#2\n5 begun\n6 stepped\n\
        7 got P0.R0+24640 8128 A#3\n8 waits mail\n9 freed\n10 exited\n\
        total P0 regions 1 bytes 1048576 waste 0 head 256 rest 8128 private 8128 public 0 object 16256 large-head 0 \
        slab-cache 0 cached 0 bin 1015808 queue 0 hand 0\n\
        leak P0.R0+128 8128 A#2\nleak P0.R0+24640 8128 A#3\nend\n";
    let report = report_of(rt.alloc(), text, false)?;
    assert_eq!(rt; report.as_slice(), want.as_bytes());
    Ok(())
}

#[test]
fn a_malloc_is_told_with_its_moves(rt: HostRuntime) -> Result<(), Fail> {
    let text = "threads A\npool P0 fixed region=16384\nA P0 x = malloc 8128\n";
    let want =
        "2 made\nmove 1 A F3 P0.R0+0 16384 none hand:A\nmove 2 A F8 P0.R0+0 128 hand:A head\n\
        move 2 A F8 P0.R0+128 16256 hand:A rest\nmove 3 A M2 P0.R0+8256 8128 rest object:A#1\n\
        3 got P0.R0+8256 8128 A#1\n\
        total P0 regions 1 bytes 16384 waste 0 head 128 rest 8128 private 0 public 0 object 8128 large-head 0 \
        slab-cache 0 cached 0 bin 0 queue 0 hand 0\nleak P0.R0+8256 8128 A#1\nend\n";
    let report = report_of(rt.alloc(), text, true)?;
    assert_eq!(rt; report.as_slice(), want.as_bytes());
    Ok(())
}

#[test]
fn an_end_tells_what_was_refused(rt: HostRuntime) -> Result<(), Fail> {
    let text =
        "threads A\npool P0 region=65536\nraw P0 putok\nraw P0 putfail\nA P0 x = malloc 40000\n\
        A P0 y = malloc 40000\nbegin A P0 z = malloc 8\ndestroy P0\nfinish A P0\ndestroy P0\nA P0 free x\n";
    let want =
        "2 made\n5 got P0.R0+64 40896 A#1\n6 got P0.R1+64 40896 A#2\n7 begun\n8 call-open A\n\
        9 got P0.R1+65528 8 A#3\n10 destroyed returned 1 refused 1 kept 0 objects 3\n\
        region P0.R0 1048576 65536 returned\nregion P0.R1 2097152 65536 refused\n11 gone\nend\n";
    let report = report_of(rt.alloc(), text, false)?;
    assert_eq!(rt; report.as_slice(), want.as_bytes());
    Ok(())
}

#[test]
fn a_summary_counts_calls_and_what_is_held(rt: HostRuntime) -> Result<(), Fail> {
    let text =
        "threads A\npool P0 region=65536\nA P0 x = malloc 100\nA P0 y = malloc 1152921504606846976\n\
        A P0 z = malloc 8\nA P0 free z\nA P0 exit\n";
    let trace = trace_of(rt.alloc(), text)?;
    let summary = sum_lines(rt.alloc(), &trace).ok().ok_or("a summary")?;
    let want = Summary {
        calls: 5,
        got: 2,
        null: 1,
        freed: 1,
        leaks: 1,
        bytes: 65536,
    };
    assert_eq!(rt; summary, want);
    Ok(())
}
