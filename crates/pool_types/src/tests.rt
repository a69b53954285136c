//! What no clause says: that the calls succeed, at the limits too.
use crate::{
    CreateError, Limits, MemorySink, MemorySource, Policy, Raw, Region, ScriptedRaw, Sink, Source,
    StandardSink, StandardSource, Which, check,
};
use std::alloc::AllocError;
use std::io::{self, Read, Write};
use std::test::Fail;

#[test]
fn a_source_gives_its_bytes_in_pieces_and_fails_where_listed(rt: HostRuntime) -> Result<(), Fail> {
    let alloc = rt.alloc();
    let mut source = MemorySource::of(vec![in alloc; 7, 8, 9]?, 2, vec![in alloc; 2]?);
    let mut buf = [0u8; 8];
    let wanted = [Some(2), None, Some(1), Some(0)];
    for want in wanted {
        assert_eq!(rt; source.read(&mut buf).ok(), want);
    }
    assert_eq!(rt; buf[0], 9);
    Ok(())
}

#[test]
fn a_sink_takes_pieces_and_fails_where_listed(rt: HostRuntime) -> Result<(), Fail> {
    let alloc = rt.alloc();
    let mut sink = MemorySink::of(Vec::new(alloc), 2, vec![in alloc; 2]?);
    let wanted = [Some(2), None, Some(2)];
    for want in wanted {
        assert_eq!(rt; sink.write(b"abc").ok(), want);
    }
    assert_eq!(rt; sink.bytes(), b"abab".as_slice());
    Ok(())
}

#[test]
fn scripts_answer_first_and_then_the_least_free_base(rt: HostRuntime) -> Result<(), Fail> {
    let alloc = rt.alloc();
    let wide = Region {
        base: 1048577,
        bytes: 1048576,
    };
    let gets = vec![in alloc; Some(wide), None, Some(wide)]?;
    let mut raw = ScriptedRaw::of(gets, vec![in alloc; false]?);
    let wanted = [Some(1048577), None, None, Some(3145728), Some(4194304)];
    for want in wanted {
        assert_eq!(rt; raw.get(65536).map(|region| region.base), want);
    }
    Ok(())
}

#[test]
fn no_more_than_64_regions_are_out(rt: HostRuntime) {
    let alloc = rt.alloc();
    let mut raw = ScriptedRaw::of(Vec::new(alloc), Vec::new(alloc));
    for i in 0..64u64 {
        assert_eq!(rt;
            raw.get(1).map(|region| region.base),
            Some((i + 1) * 1048576)
        );
    }
    assert_eq!(rt; raw.get(1), None);
}

#[test]
fn puts_take_their_script_and_free_the_base(rt: HostRuntime) -> Result<(), Fail> {
    let alloc = rt.alloc();
    let mut raw = ScriptedRaw::of(Vec::new(alloc), vec![in alloc; false]?);
    for want in [false, true] {
        let Some(region) = raw.get(1048576) else {
            return Err(Fail::from("a region"));
        };
        assert_eq!(rt; region.base, 1048576);
        assert_eq!(rt; raw.put(region), want);
    }
    Ok(())
}

/// A policy with both callbacks, and limits that go with it.
const POLICY: Policy = Policy {
    gets: true,
    frees: true,
    version: 1,
    granularity: 0,
    fixed: false,
    keep: false,
    reserved: 0,
};

const LIMITS: Limits = Limits {
    pool: 0,
    seats: 64,
    span: 1024,
    region: 1048576,
};

#[test]
fn a_making_is_refused_for_its_first_cause(rt: HostRuntime) {
    let invalid = Policy {
        frees: false,
        version: 2,
        ..POLICY
    };
    let later = Policy {
        version: 2,
        ..POLICY
    };
    let coarse = Policy {
        granularity: 8388609,
        ..POLICY
    };
    let narrow = Limits {
        span: 129,
        ..LIMITS
    };
    let crowded = Limits {
        seats: 65,
        region: 1,
        ..LIMITS
    };
    let tight = Limits {
        span: 130,
        ..LIMITS
    };
    let cases = [
        (POLICY, LIMITS, Ok(())),
        (POLICY, tight, Ok(())),
        (invalid, crowded, Err(CreateError::InvalidPolicy)),
        (later, crowded, Err(CreateError::UnsupportedPolicy)),
        (coarse, crowded, Err(CreateError::BadLimits(Which::Seats))),
        (
            coarse,
            narrow,
            Err(CreateError::BadLimits(Which::Granularity)),
        ),
        (POLICY, narrow, Err(CreateError::BadLimits(Which::Span))),
    ];
    for (policy, limits, want) in cases {
        assert_eq!(rt; check(&policy, &limits), want);
    }
}

/// Fails at its first read and at its first write, and at its second flush.
#[derive(Drop)]
struct Stumbling {
    calls: u32,
    flushes: u32,
}

impl Read for Stumbling {
    fn read(&mut self, buf: &mut [u8]) -> io::Result<usize> {
        self.calls = self.calls.saturating_add(1);
        if self.calls == 1 {
            return Err(io::Error::from(AllocError));
        }
        Ok(buf.len().min(1))
    }
}

impl Write for Stumbling {
    fn write(&mut self, piece: &[u8]) -> io::Result<usize> {
        self.calls = self.calls.saturating_add(1);
        if self.calls == 1 {
            return Err(io::Error::from(AllocError));
        }
        Ok(piece.len().min(2))
    }

    fn flush(&mut self) -> io::Result<()> {
        self.flushes = self.flushes.saturating_add(1);
        if self.flushes == 2 {
            return Err(io::Error::from(AllocError));
        }
        Ok(())
    }
}

#[test]
fn a_failed_read_of_the_system_is_not_tried_again(rt: HostRuntime) {
    let mut source = StandardSource::of(Stumbling {
        calls: 0,
        flushes: 0,
    });
    let mut buf = [0u8; 8];
    for want in [None, Some(1)] {
        assert_eq!(rt; source.read(&mut buf).ok(), want);
    }
}

#[test]
fn a_failed_write_or_flush_of_the_system_is_not_passed_over(rt: HostRuntime) {
    let mut sink = StandardSink::of(Stumbling {
        calls: 0,
        flushes: 0,
    });
    for want in [None, Some(2), None, Some(2)] {
        assert_eq!(rt; sink.write(b"abc").ok(), want);
    }
}
