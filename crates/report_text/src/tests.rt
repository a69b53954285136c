//! The texts of entries as the language's description has them, and writes that are short or fail.
ghost use Rattle.std.specs.Prelude.{◌≤◌};

use crate::{BinNumbers, Fate, Report, ReportEntry, write_report};
use arrayvec::ArrayVec;
use part_model::{Holder, Part, Range, Totals};
use pool_types::{
    Answer, Awaited, Failed, Found, Grant, Keeper, KeeperChange, Leak, Looks, MemorySink,
    NullCause, Place, Region, RegionRec, Row, ThreadName, Threads, Which,
};
use std::alloc::{AllocError, Global};
use std::test::Fail;

/// Three different numbers, so that an exchange shows.
const PLACE: Place = Place {
    pool: 1,
    region: 23,
    offset: 147448,
};

const GRANT: Grant = Grant { seat: 1, number: 7 };

const REGION: RegionRec = RegionRec {
    number: 4,
    first: 1,
    granules: 128,
    waste: 0,
    region: Region {
        base: 1048577,
        bytes: 2097152,
    },
};

/// The names of two threads.
#[derive(Drop)]
struct Pair {
    names: [ThreadName; 2],
}

impl Threads for Pair {
    ghost use Rattle.pool_types.specs.Texts.{names_of};

    ghost names = { λ pair. names_of pair.names };

    fn threads(&self) -> &[ThreadName] {
        &self.names
    }
}

/// A thread's name of these bytes.
fn thread(word: &[u8]) -> Result<ThreadName, Fail> {
    match ArrayVec::try_from(word) {
        Ok(bytes) => Ok(ThreadName { bytes }),
        Err(_) => Err(Fail::from("a name of too many bytes")),
    }
}

/// A report of two threads, `A` and `B_2`.
fn report_of(alloc: Global, entries: &[ReportEntry]) -> Result<Report, Fail> {
    let pair = Pair {
        names: [thread(b"A")?, thread(b"B_2")?],
    };
    let Ok(mut report) = Report::make(alloc, &pair) else {
        return Err(Fail::from("no memory"));
    };
    for entry in entries {
        if report.add(*entry).is_err() {
            return Err(Fail::from("no memory"));
        }
    }
    Ok(report)
}

/// What a sink has that takes at most so many bytes a call and fails at these calls, after the report was written.
fn written(
    alloc: Global,
    report: &Report,
    most: usize,
    failing: &[u64],
) -> Result<(Result<(), Failed>, Vec<u8>), AllocError>
    requires { 1 ≤ most }
{
    let failing = Vec::from_slice(alloc, failing)?;
    let mut sink = MemorySink::of(Vec::new(alloc), most, failing);
    let result = write_report(&mut sink, report);
    Ok((result, Vec::from_slice(alloc, sink.bytes())?))
}

/// The report of one entry, without its last line.
fn text_of(alloc: Global, entry: ReportEntry) -> Result<Vec<u8>, Fail> {
    let report = report_of(alloc, &[entry])?;
    let (_, mut text) = written(alloc, &report, 4096, &[])?;
    text.truncate(text.len().saturating_sub(4));
    Ok(text)
}

#[test]
fn each_thing_that_a_line_comes_to_has_its_text(rt: HostRuntime) -> Result<(), Fail> {
    let line = 4294967295;
    let cases = [
        (ReportEntry::Made { line: 2 }, "2 made\n"),
        (
            ReportEntry::InvalidPolicy { line: 28 },
            "28 invalid-policy\n",
        ),
        (
            ReportEntry::UnsupportedPolicy { line: 29 },
            "29 unsupported-policy\n",
        ),
        (
            ReportEntry::BadLimits {
                line: 1,
                limit: Which::Seats,
            },
            "1 bad-limits seats\n",
        ),
        (
            ReportEntry::BadLimits {
                line: 1,
                limit: Which::Region,
            },
            "1 bad-limits region\n",
        ),
        (
            ReportEntry::BadLimits {
                line: 1,
                limit: Which::Granularity,
            },
            "1 bad-limits granularity\n",
        ),
        (
            ReportEntry::BadLimits {
                line: 27,
                limit: Which::Span,
            },
            "27 bad-limits span\n",
        ),
        (ReportEntry::Begun { line: 18 }, "18 begun\n"),
        (ReportEntry::Stepped { line: 19 }, "19 stepped\n"),
        (
            ReportEntry::Waits {
                line: 5,
                awaited: Awaited::BinLock(9),
            },
            "5 waits lock\n",
        ),
        (
            ReportEntry::Waits {
                line: 5,
                awaited: Awaited::CacheLock(9),
            },
            "5 waits lock\n",
        ),
        (
            ReportEntry::Waits {
                line: 5,
                awaited: Awaited::Office,
            },
            "5 waits office\n",
        ),
        (
            ReportEntry::Waits {
                line: 5,
                awaited: Awaited::Mail(9),
            },
            "5 waits mail\n",
        ),
        (
            ReportEntry::Waits {
                line: 5,
                awaited: Awaited::Half(9),
            },
            "5 waits half\n",
        ),
        (ReportEntry::Idle { line: 23 }, "23 idle\n"),
        (ReportEntry::CallOpen { line: 20 }, "20 call-open\n"),
        (
            ReportEntry::CallOpenOf { line: 21, seat: 0 },
            "21 call-open A\n",
        ),
        (
            ReportEntry::CallOpenOf { line: 22, seat: 1 },
            "22 call-open B_2\n",
        ),
        (ReportEntry::Gone { line }, "4294967295 gone\n"),
        (ReportEntry::Reset { line: 26 }, "26 reset\n"),
    ];
    for (entry, want) in cases {
        assert_eq!(rt;
            text_of(rt.alloc(), entry)?.as_slice(),
            want.as_bytes(),
            "at {want}"
        );
    }
    Ok(())
}

#[test]
fn each_answer_has_its_text(rt: HostRuntime) -> Result<(), Fail> {
    let looks = Looks {
        first: 1,
        last: 511,
        seen: 3,
    };
    let got = Answer::Got {
        place: PLACE,
        usable: 8,
        grant: GRANT,
    };
    let full = NullCause::SpanFull {
        asked: 13,
        greatest: 12,
    };
    let cases = [
        (got, "6 got P1.R23+147448 8 B_2#7\n"),
        (Answer::Null(NullCause::BadRequest), "6 null bad-request\n"),
        (Answer::Null(NullCause::FreedByRealloc), "6 null freed\n"),
        (
            Answer::Null(NullCause::NumbersSpent),
            "6 null numbers-spent\n",
        ),
        (
            Answer::Null(NullCause::TooLarge { granules: 12207032 }),
            "6 null too-large 12207032\n",
        ),
        (Answer::Null(NullCause::RawFailed), "6 null raw-failed\n"),
        (Answer::Null(full), "6 null span-full 13 12\n"),
        (
            Answer::Null(NullCause::RegionsFull { out: 64, next: 70 }),
            "6 null regions-full 64 70\n",
        ),
        (
            Answer::Null(NullCause::NoFit(looks)),
            "6 null no-fit 1..511 3\n",
        ),
        (Answer::Freed, "6 freed\n"),
        (Answer::False, "6 false\n"),
        (Answer::Size(112), "6 size 112\n"),
        (Answer::Pool(7), "6 pool P7\n"),
        (Answer::NoPool, "6 no-pool\n"),
        (Answer::NotHeld(Found::NoPlace), "6 not-held place\n"),
        (Answer::NotHeld(Found::NoGrant), "6 not-held none\n"),
        (Answer::NotHeld(Found::Other(GRANT)), "6 not-held B_2#7\n"),
        (Answer::Exited, "6 exited\n"),
    ];
    for (answer, want) in cases {
        let entry = ReportEntry::Answered { line: 6, answer };
        assert_eq!(rt;
            text_of(rt.alloc(), entry)?.as_slice(),
            want.as_bytes(),
            "at {want}"
        );
    }
    Ok(())
}

#[test]
fn each_holder_has_its_text(rt: HostRuntime) -> Result<(), Fail> {
    let cases = [
        (None, "none"),
        (Some(Holder::Waste), "waste"),
        (Some(Holder::Head), "head"),
        (Some(Holder::Rest), "rest"),
        (Some(Holder::Private), "private"),
        (Some(Holder::Public), "public"),
        (Some(Holder::Object(GRANT)), "object:B_2#7"),
        (Some(Holder::LargeHead(GRANT)), "large-head:B_2#7"),
        (Some(Holder::SlabCache(1)), "slab-cache:B_2"),
        (Some(Holder::Cached(13)), "cached:13"),
        (Some(Holder::Bin), "bin"),
        (Some(Holder::Queue), "queue"),
        (Some(Holder::Hand(1)), "hand:B_2"),
    ];
    let alloc = rt.alloc();
    let range = Range {
        place: PLACE,
        bytes: 112,
    };
    for (holder, want) in cases {
        let part = Part {
            range,
            from: holder,
            to: Some(Holder::Hand(0)),
        };
        let entry = ReportEntry::Moved {
            number: 55,
            seat: 0,
            row: Row::F10,
            part,
        };
        let want = format!(in alloc; "move 55 A F10 P1.R23+147448 112 {want} hand:A\n")?;
        assert_eq!(rt; text_of(alloc, entry)?.as_slice(), want.as_bytes());
    }
    Ok(())
}

#[test]
fn what_is_told_of_slabs_regions_and_pools_has_its_text(rt: HostRuntime) -> Result<(), Fail> {
    let change = |from, to| ReportEntry::KeeperMoved {
        number: 55,
        seat: 1,
        row: Row::O5,
        change: KeeperChange {
            slab: PLACE,
            from,
            to,
        },
    };
    let left = |fate| ReportEntry::RegionLeft {
        pool: 5,
        region: REGION,
        fate,
    };
    let destroyed = ReportEntry::Destroyed {
        line: 40,
        returned: 1,
        refused: 2,
        kept: 3,
        objects: 4,
    };
    let cases = [
        (
            destroyed,
            "40 destroyed returned 1 refused 2 kept 3 objects 4\n",
        ),
        (
            left(Fate::Returned),
            "region P5.R4 1048577 2097152 returned\n",
        ),
        (
            left(Fate::Refused),
            "region P5.R4 1048577 2097152 refused\n",
        ),
        (left(Fate::Kept), "region P5.R4 1048577 2097152 kept\n"),
        (
            change(Keeper::Seat(0), Keeper::Orphan),
            "keeper 55 B_2 O5 P1.R23+147448 A orphan\n",
        ),
        (
            change(Keeper::Orphan, Keeper::Hand(1)),
            "keeper 55 B_2 O5 P1.R23+147448 orphan hand:B_2\n",
        ),
        (
            ReportEntry::Total {
                pool: 4,
                totals: TOTALS,
            },
            "total P4 regions 1 bytes 2 waste 3 head 4 rest 5 private 6 public 7 object 8 \
            large-head 9 slab-cache 10 cached 11 bin 12 queue 13 hand 14\n",
        ),
        (
            ReportEntry::CacheBin { pool: 4, bin: BIN },
            "cache P4 977 used 1 items 2 mean 3 threshold 4 get 5 cleaned 6\n",
        ),
        (
            ReportEntry::Leaked {
                leak: Leak {
                    place: PLACE,
                    usable: 112,
                    grant: GRANT,
                },
            },
            "leak P1.R23+147448 112 B_2#7\n",
        ),
    ];
    for (entry, want) in cases {
        assert_eq!(rt;
            text_of(rt.alloc(), entry)?.as_slice(),
            want.as_bytes(),
            "at {want}"
        );
    }
    Ok(())
}

const TOTALS: Totals = Totals {
    regions: 1,
    bytes: 2,
    waste: 3,
    head: 4,
    rest: 5,
    private: 6,
    public: 7,
    object: 8,
    large_head: 9,
    slab_cache: 10,
    cached: 11,
    bin: 12,
    queue: 13,
    hand: 14,
};

const BIN: BinNumbers = BinNumbers {
    granules: 977,
    used: 1,
    items: 2,
    mean: 3,
    threshold: 4,
    get: 5,
    cleaned: 6,
};

/// The entries of a run, and their report.
const RUN: [ReportEntry; 4] = [
    ReportEntry::Made { line: 2 },
    ReportEntry::Answered {
        line: 3,
        answer: Answer::Pool(1),
    },
    ReportEntry::Idle { line: 4 },
    ReportEntry::CallOpenOf { line: 5, seat: 1 },
];

const RUN_TEXT: &[u8] = b"2 made\n3 pool P1\n4 idle\n5 call-open B_2\nend\n";

#[test]
fn the_texts_of_entries_stand_in_order_before_the_end(rt: HostRuntime) -> Result<(), Fail> {
    let alloc = rt.alloc();
    let report = report_of(alloc, &RUN)?;
    for most in [1, 2, 3, 4096] {
        let (result, text) = written(alloc, &report, most, &[])?;
        assert_eq!(rt; result, Ok(()), "at {most}");
        assert_eq!(rt; text.as_slice(), RUN_TEXT, "at {most}");
    }
    let empty = report_of(alloc, &[])?;
    assert_eq!(rt;
        written(alloc, &empty, 4096, &[])?.1.as_slice(),
        b"end\n".as_slice()
    );
    Ok(())
}

#[test]
fn a_failure_at_any_write_leaves_a_front_of_the_text(rt: HostRuntime) -> Result<(), Fail> {
    let alloc = rt.alloc();
    let report = report_of(alloc, &RUN)?;
    // 44 bytes, three at a time: 14 writes of the entries' texts, and 2 of the last line.
    for failing in 1..=16 {
        let (result, text) = written(alloc, &report, 3, &[failing])?;
        assert_eq!(rt; result, Err(Failed), "at {failing}");
        assert!(rt; RUN_TEXT.starts_with(text.as_slice()), "at {failing}");
        assert!(rt; text.len() < RUN_TEXT.len(), "at {failing}");
    }
    let (result, text) = written(alloc, &report, 3, &[17])?;
    assert_eq!(rt; result, Ok(()));
    assert_eq!(rt; text.as_slice(), RUN_TEXT);
    Ok(())
}
