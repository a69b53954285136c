//! The rows of frees, and of questions of places.

use super::{mallocs, run, sink_of, source_of};
use pool_types::MemorySource;
use program_edge::Status;
use std::alloc::Global;
use std::io::{self, Write};
use std::process::Abort;
use std::test::Fail;

/// Replays these calls on one fixed pool, and sees that the report's front is this, behind that the pool was made.
fn see_front(rt: &impl Abort, alloc: Global, calls: &str, want: &str) -> Result<(), Fail> {
    let trace = format!(in alloc; "threads A\npool P0 fixed\n{calls}")?;
    let want = format!(in alloc; "2 made\n{want}")?;
    let source = source_of(alloc, trace.as_bytes(), 4096)?;
    let (status, text) = run(alloc, &[], source, sink_of(alloc, 4096, &[])?)?;
    assert_eq!(rt; status, Status::Done, "at {calls}");
    assert!(rt; text.starts_with(want.as_bytes()), "at {calls}");
    Ok(())
}

/// The report of an object that is freed twice, and of places where none is held.
const FREED_TWICE: &str = "3 got P0.R0+16272 112 A#1\n4 freed\n5 not-held none\n6 not-held none\n\
    7 not-held place\n8 not-held place\n9 false\n10 size 0\n11 no-pool\n\
    total P0 regions 1 bytes 1048576 waste 0 head 0 rest 0 private 0 public 0 object 0 \
    large-head 0 slab-cache 16384 cached 0 bin 1032192 queue 0 hand 0\nend\n";

#[test]
fn an_object_is_freed_once(rt: HostRuntime) -> Result<(), Fail> {
    let calls = "A P0 x = malloc 100\nA P0 free x\nA P0 free x\nA P0 free P0.R0+16280\n\
        A P0 free P0.R0+16273\nA P0 free P0.R5+0\nA P0 free null\nA P0 msize null\nA P0 identify x\n";
    see_front(&rt, rt.alloc(), calls, FREED_TWICE)
}

#[test]
fn no_place_is_held_before_the_first_malloc(rt: HostRuntime) -> Result<(), Fail> {
    let calls = "A P0 free P0.R0+16272\nA P0 free P1.R0+0\nA P0 msize P0.R0+0\n\
        A P0 identify P0.R0+0\nA P0 free null\n";
    let want = "3 not-held place\n4 not-held place\n5 not-held place\n6 no-pool\n7 false\n\
        total P0 regions 0 bytes 0 ";
    see_front(&rt, rt.alloc(), calls, want)
}

#[test]
fn what_is_held_is_told(rt: HostRuntime) -> Result<(), Fail> {
    let calls = "A P0 x = malloc 100\nA P0 msize x\nA P0 identify x\nA P0 msize P0.R0+16272\n\
        A P0 identify P0.R0+16272\n";
    let want = "3 got P0.R0+16272 112 A#1\n4 size 112\n5 pool P0\n6 size 112\n7 pool P0\ntotal ";
    see_front(&rt, rt.alloc(), calls, want)
}

#[test]
fn a_place_that_was_granted_again_is_freed_by_its_old_name(rt: HostRuntime) -> Result<(), Fail> {
    let calls = "A P0 x = malloc 100\nA P0 y = malloc 100\nA P0 free x\nA P0 free x\n\
        A P0 z = malloc 97\nA P0 free x\nA P0 free z\n";
    let want = "3 got P0.R0+16272 112 A#1\n4 got P0.R0+16160 112 A#2\n5 freed\n6 not-held none\n\
        7 got P0.R0+16272 112 A#3\n8 freed\n9 not-held none\n\
        total P0 regions 1 bytes 1048576 waste 0 head 144 rest 16016 private 112 public 0 object 112 ";
    see_front(&rt, rt.alloc(), calls, want)
}

#[test]
fn the_object_that_was_freed_last_is_given_first(rt: HostRuntime) -> Result<(), Fail> {
    let calls = "A P0 a = malloc 100\nA P0 b = malloc 100\nA P0 c = malloc 100\nA P0 free a\n\
        A P0 free b\nA P0 d = malloc 100\nA P0 e = malloc 100\nA P0 f = malloc 100\n";
    let want = "3 got P0.R0+16272 112 A#1\n4 got P0.R0+16160 112 A#2\n5 got P0.R0+16048 112 A#3\n\
        6 freed\n7 freed\n8 got P0.R0+16160 112 A#4\n9 got P0.R0+16272 112 A#5\n\
        10 got P0.R0+15936 112 A#6\ntotal ";
    see_front(&rt, rt.alloc(), calls, want)
}

#[test]
fn objects_of_a_slab_are_freed_in_every_order(rt: HostRuntime) -> Result<(), Fail> {
    let alloc = rt.alloc();
    // A slab has three objects of 5376 bytes. Two are freed, and given again, the newest first; then all are freed.
    let orders = [
        ("a", "b", "c", "11008", "5632"),
        ("a", "c", "b", "11008", "256"),
        ("b", "a", "c", "5632", "11008"),
        ("b", "c", "a", "5632", "256"),
        ("c", "a", "b", "256", "11008"),
        ("c", "b", "a", "256", "5632"),
    ];
    let begin = "A P0 a = malloc 5376\nA P0 b = malloc 5376\nA P0 c = malloc 5376\n";
    let got = "3 got P0.R0+11008 5376 A#1\n4 got P0.R0+5632 5376 A#2\n5 got P0.R0+256 5376 A#3\n";
    let left = "total P0 regions 1 bytes 1048576 waste 0 head 0 rest 0 private 0 public 0 object 0 \
        large-head 0 slab-cache 16384 ";
    for (first, second, last, older, newer) in orders {
        let freed = format!(in alloc; "{begin}A P0 free {first}\nA P0 free {second}\n")?;
        let calls = format!(in alloc;
            "{freed}A P0 d = malloc 5376\nA P0 e = malloc 5376\nA P0 free {last}\nA P0 free d\nA P0 free e\n"
        )?;
        let again = format!(in alloc;
            "{got}6 freed\n7 freed\n8 got P0.R0+{newer} 5376 A#4\n9 got P0.R0+{older} 5376 A#5\n"
        )?;
        let want = format!(in alloc; "{again}10 freed\n11 freed\n12 freed\n{left}")?;
        see_front(&rt, alloc, calls.as_str(), want.as_str())?;
    }
    Ok(())
}

#[test]
fn places_where_no_object_is_held_are_told_apart(rt: HostRuntime) -> Result<(), Fail> {
    let alloc = rt.alloc();
    let cases = [
        ("P0.R0+8", "none"),
        ("P0.R0+1000", "none"),
        ("P0.R0+16160", "none"),
        ("P0.R0+16280", "none"),
        ("P0.R0+20000", "none"),
        ("P0.R0+1048568", "none"),
        ("P0.R0+1048572", "place"),
        ("P0.R0+1048576", "place"),
        ("P0.R0+18446744073709551608", "place"),
        ("P0.R1+16272", "place"),
        ("P1.R0+16272", "place"),
    ];
    for (place, found) in cases {
        let calls = format!(in alloc;
            "A P0 x = malloc 100\nA P0 free {place}\nA P0 msize {place}\n"
        )?;
        let want = format!(in alloc;
            "3 got P0.R0+16272 112 A#1\n4 not-held {found}\n5 not-held {found}\ntotal "
        )?;
        see_front(&rt, alloc, calls.as_str(), want.as_str())?;
        let calls = format!(in alloc; "A P0 x = malloc 100\nA P0 identify {place}\n")?;
        let want = "3 got P0.R0+16272 112 A#1\n4 no-pool\ntotal ";
        see_front(&rt, alloc, calls.as_str(), want)?;
    }
    Ok(())
}

/// The trace of 80 mallocs of the largest class, frees of all their objects in order, and so many mallocs more.
fn emptied(alloc: Global, more: u32) -> io::Result<Vec<u8>> {
    let mut trace = mallocs(alloc, 80)?;
    for number in 0..80 {
        writeln!(trace, "A P0 free x{number}")?;
    }
    for number in 0..more {
        writeln!(trace, "A P0 y{number} = malloc 8128")?;
    }
    Ok(trace)
}

#[test]
fn the_slab_cache_keeps_the_newest_slabs(rt: HostRuntime) -> Result<(), Fail> {
    let alloc = rt.alloc();
    let cases = [
        (
            0,
            "\n162 freed\ntotal P0 regions 1 bytes 1048576 waste 0 head 0 rest 0 private 0 public 0 \
            object 0 large-head 0 slab-cache 245760 cached 0 bin 802816 queue 0 hand 0\nend\n",
        ),
        (1, "\n163 got P0.R0+647232 8128 A#81\ntotal "),
        (31, "\n193 got P0.R0+663616 8128 A#111\ntotal "),
    ];
    for (more, want) in cases {
        let source = MemorySource::of(emptied(alloc, more)?, 4096, Vec::new(alloc));
        let (status, text) = run(alloc, &[], source, sink_of(alloc, 4096, &[])?)?;
        assert_eq!(rt; status, Status::Done, "at {more}");
        let text = String::from_utf8(text).ok().ok_or("no text")?;
        assert!(rt; text.contains(want), "at {more}");
    }
    Ok(())
}

#[test]
fn a_name_whose_call_got_null_stands_for_null(rt: HostRuntime) -> Result<(), Fail> {
    let alloc = rt.alloc();
    let mut trace = mallocs(alloc, 129)?;
    trace.write_all(b"A P0 free x128\nA P0 msize x128\nA P0 identify x128\nA P0 free x127\n")?;
    trace.write_all(b"A P0 free x128\nA P0 y = malloc 8128\n")?;
    let source = MemorySource::of(trace, 4096, Vec::new(alloc));
    let (status, text) = run(alloc, &[], source, sink_of(alloc, 4096, &[])?)?;
    assert_eq!(rt; status, Status::Done);
    let want =
        "\n131 null no-fit 1..511 0\n132 false\n133 size 0\n134 no-pool\n135 freed\n136 false\n\
        137 got P0.R0+1032320 8128 A#129\ntotal ";
    let text = String::from_utf8(text).ok().ok_or("no text")?;
    assert!(rt; text.contains(want));
    Ok(())
}
