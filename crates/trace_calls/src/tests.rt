//! What the options of pool lines make, what calls ask, and what a pool's end reports. Expected texts come from the
//! language's description in `docs/trace.md`.

use crate::{Places, add_entry, add_pool_end, judge_pool, made_entry, pool_limits, pool_policy};
use part_model::Totals;
use pool_types::{Answer, Grant, Limits, MemorySink, Place, Policy, Request};
use report_text::{BinNumbers, Report, write_report};
use std::alloc::{AllocError, Global};
use std::process::Abort;
use std::test::Fail;
use trace_reader::{Act, Forms, PoolOption, Trace, TraceCall, read_trace};

/// The trace of these lines.
fn trace_of(alloc: Global, text: &str) -> Result<Trace, Fail> {
    Ok(
        read_trace(alloc, text.as_bytes(), Forms::All)
            .ok()
            .ok_or("a trace")?,
    )
}

#[test]
fn options_set_what_they_name(rt: HostRuntime) -> Result<(), Fail> {
    let options = [
        PoolOption::Keep,
        PoolOption::Gran(4096),
        PoolOption::Region(65536),
        PoolOption::Span(300),
        PoolOption::Version(7),
        PoolOption::Reserved(9),
        PoolOption::NoGet,
    ];
    let policy = Policy {
        gets: false,
        frees: true,
        version: 7,
        granularity: 4096,
        fixed: false,
        keep: true,
        reserved: 9,
    };
    let limits = Limits {
        pool: 3,
        seats: 2,
        span: 300,
        region: 65536,
    };
    assert_eq!(rt; pool_policy(&options), policy);
    assert_eq!(rt; pool_limits(3, 2, &options), limits);
    Ok(())
}

/// Adds what the pool lines of a trace report.
fn add_pools(report: &mut Report, trace: &Trace) -> Result<(), Fail> {
    for line in trace.lines() {
        if let Act::Pool { pool } = &line.act {
            let options = trace.pools().get(usize::from(*pool)).ok_or("options")?;
            let seats = u8::try_from(trace.threads().len()).ok().ok_or("threads")?;
            let verdict = judge_pool(*pool, seats, options.as_slice());
            add_entry(report, made_entry(line.line, verdict))
                .ok()
                .ok_or("no memory")?;
        }
    }
    Ok(())
}

/// Sees that the report writes this.
fn see_report(
    rt: &impl Abort,
    alloc: Global,
    report: &Report,
    want: &str,
) -> Result<(), AllocError> {
    let mut sink = MemorySink::of(Vec::new(alloc), 4096, Vec::new(alloc));
    let written = write_report(&mut sink, report);
    assert!(rt; written.is_ok());
    assert_eq!(rt; sink.bytes(), want.as_bytes());
    Ok(())
}

#[test]
fn a_pool_is_made_as_its_options_allow(rt: HostRuntime) -> Result<(), Fail> {
    let alloc = rt.alloc();
    let text =
        "threads A\npool P0 nofree\npool P1 version=2\npool P2 span=129\npool P3 fixed nofree\n";
    let trace = trace_of(alloc, text)?;
    let mut report = Report::make(alloc, &trace).ok().ok_or("no memory")?;
    add_pools(&mut report, &trace)?;
    let want = "2 invalid-policy\n3 unsupported-policy\n4 bad-limits span\n5 made\nend\n";
    Ok(see_report(&rt, alloc, &report, want)?)
}

/// The place at this offset of the first region.
fn place_at(offset: u64) -> Place {
    Place {
        pool: 0,
        region: 0,
        offset,
    }
}

/// What each call of the lines asks, where each that binds a name gets the next place.
fn ask_all(alloc: Global, trace: &Trace) -> Result<Vec<Request>, AllocError> {
    let mut places = Places::unbound(alloc);
    let mut asked = Vec::new(alloc);
    for line in trace.lines() {
        if let Act::Call { call, .. } = &line.act {
            asked.push(places.request_of(call))?;
            let grant = Grant { seat: 0, number: 1 };
            let answer = match call {
                TraceCall::Malloc { size: 0, .. } => Answer::Freed,
                _ => Answer::Got {
                    place: place_at(u64::from(line.line)),
                    usable: 8,
                    grant,
                },
            };
            places.answered(call, answer)?;
        }
    }
    Ok(asked)
}

#[test]
fn a_name_stands_for_what_its_call_got(rt: HostRuntime) -> Result<(), Fail> {
    let alloc = rt.alloc();
    let text = "threads A\npool P0\nA P0 x = malloc 8\nA P0 y = malloc 0\nA P0 z = realloc x 9\n\
        A P0 free z\nA P0 msize y\nA P0 identify P0.R0+3\nA P0 w = arealloc null 5 16\n";
    let trace = trace_of(alloc, text)?;
    let want = [
        Request::Malloc { size: 8 },
        Request::Malloc { size: 0 },
        Request::Realloc {
            place: Some(place_at(3)),
            size: 9,
        },
        Request::Free {
            place: Some(place_at(5)),
        },
        Request::Msize { place: None },
        Request::Identify {
            place: Some(place_at(3)),
        },
        Request::AlignedRealloc {
            place: None,
            size: 5,
            alignment: 16,
        },
    ];
    let asked = ask_all(alloc, &trace)?;
    assert_eq!(rt; asked.as_slice(), want.as_slice());
    Ok(())
}

#[test]
fn a_pools_end_tells_its_totals_and_its_cache(rt: HostRuntime) -> Result<(), Fail> {
    let alloc = rt.alloc();
    let trace = trace_of(alloc, "threads A B\npool P0\npool P1\n")?;
    let mut report = Report::make(alloc, &trace).ok().ok_or("no memory")?;
    let bins = [BinNumbers {
        granules: 2,
        ..BinNumbers::default()
    }];
    add_pool_end(&mut report, 1, Totals::default(), &bins, &[])
        .ok()
        .ok_or("no memory")?;
    let want = "total P1 regions 0 bytes 0 waste 0 head 0 rest 0 private 0 public 0 object 0 \
        large-head 0 slab-cache 0 cached 0 bin 0 queue 0 hand 0\n\
        cache P1 2 used 0 items 0 mean 0 threshold 0 get 0 cleaned 0\nend\n";
    Ok(see_report(&rt, alloc, &report, want)?)
}
