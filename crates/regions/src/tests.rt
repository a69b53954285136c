//! What no clause says: that the calls succeed, and what comes of scripts.
ghost use Rattle.std.specs.Prelude.{◌≡◌, ◌<◌, ◌≤◌, ◌==◌, true, All, IfOk};
ghost use Rattle.std.specs.List.{list_any};

use crate::{ObtainError, Office};
use pool_types::{Limits, Policy, Raw, Region, RegionRec, ScriptedRaw, check};
use std::alloc::Global;
use std::test::Fail;

/// A policy with both callbacks.
const POLICY: Policy = Policy {
    gets: true,
    frees: true,
    version: 1,
    granularity: 0,
    fixed: false,
    keep: false,
    reserved: 0,
};

/// A policy that gets one region and no more.
const FIXED: Policy = Policy {
    fixed: true,
    ..POLICY
};

/// What is told of a record: number, first index, granules and waste.
type Row = (u32, u32, u32, u32);

fn limits(span: u32, region: u64) -> Limits
    ensures { result.span ≡ span }
{
    Limits {
        pool: 0,
        seats: 1,
        span,
        region,
    }
}

/// An office over a callback that answers by these scripts.
fn office(
    alloc: Global,
    policy: Policy,
    limits: Limits,
    gets: &[Option<Region>],
    puts: &[bool],
) -> Result<Office<ScriptedRaw>, Fail>
    ensures { IfOk result (λ made. made.limits ≡ limits) }
{
    if check(&policy, &limits).is_err() {
        return Err(Fail::from("limits that are refused"));
    }
    let gets = Vec::from_slice(alloc, gets)?;
    let puts = Vec::from_slice(alloc, puts)?;
    Ok(Office::over(policy, limits, ScriptedRaw::of(gets, puts)))
}

fn region(base: u64, bytes: u64) -> Option<Region> {
    Some(Region { base, bytes })
}

fn row(record: RegionRec) -> Row {
    (record.number, record.first, record.granules, record.waste)
}

/// Gives back the region that starts at the index, if there is one.
fn give(office: &mut Office<ScriptedRaw>, first: u32) -> Option<bool>
    ensures { office.new.limits ≡ office.old.limits }
{
    if office.regions().iter().any(|one| one.first == first) {
        Some(office.give(first))
    } else {
        None
    }
}

#[test]
fn waste_lies_in_front_and_behind(rt: HostRuntime) -> Result<(), Fail> {
    let gets = [region(1048676, 65536)];
    let mut office = office(rt.alloc(), POLICY, limits(16, 8192), &gets, &[])?;
    assert_eq!(rt; office.obtain(1).map(row), Ok((0, 1, 7, 8092)));
    Ok(())
}

#[test]
fn a_span_is_filled(rt: HostRuntime) -> Result<(), Fail> {
    let mut office = office(rt.alloc(), POLICY, limits(10, 65536), &[], &[])?;
    assert_eq!(rt; office.obtain(1).map(row), Ok((0, 0, 8, 0)));
    let full = ObtainError::SpanFull {
        asked: 10,
        greatest: 1,
    };
    assert_eq!(rt; office.obtain(1), Err(full));
    Ok(())
}

#[test]
fn no_more_than_64_regions_are_out(rt: HostRuntime) -> Result<(), Fail> {
    let mut office = office(rt.alloc(), POLICY, limits(1024, 8192), &[], &[])?;
    for i in 0..64u32 {
        assert_eq!(rt; office.obtain(2).map(row), Ok((i, i * 6, 4, 0)));
    }
    let full = ObtainError::RegionsFull { out: 64, next: 64 };
    assert_eq!(rt; office.obtain(2), Err(full));
    assert_eq!(rt; give(&mut office, 18), Some(true));
    assert_eq!(rt; office.obtain(2).map(row), Ok((67, 18, 4, 0)));
    Ok(())
}

#[test]
fn a_fixed_office_gets_one_region(rt: HostRuntime) -> Result<(), Fail> {
    let gets = [None];
    let mut office = office(rt.alloc(), FIXED, limits(16, 16384), &gets, &[])?;
    let wanted = [
        Err(ObtainError::RawFailed),
        Ok((0, 0, 2, 0)),
        Err(ObtainError::HasRegion),
    ];
    for want in wanted {
        assert_eq!(rt; office.obtain(9).map(row), want);
    }
    assert_eq!(rt; give(&mut office, 0), Some(true));
    assert_eq!(rt; office.obtain(9), Err(ObtainError::HasRegion));
    Ok(())
}

#[test]
fn regions_go_to_the_lowest_gap_of_their_parity_or_are_cut(rt: HostRuntime) -> Result<(), Fail> {
    let gets = [
        region(1048576, 24576),
        region(8388608, 32768),
        region(16777216, 32768),
        region(33562624, 40960),
        None,
        region(67108864, 327680),
        region(134217728, 12884901888),
    ];
    let mut office = office(rt.alloc(), POLICY, limits(64, 8192), &gets, &[])?;
    let first = [
        Ok((0, 0, 3, 0)),
        Ok((1, 4, 4, 0)),
        Ok((2, 10, 4, 0)),
        Ok((3, 15, 5, 0)),
    ];
    for want in first {
        assert_eq!(rt; office.obtain(1).map(row), want);
    }
    assert_eq!(rt; give(&mut office, 4), Some(true));
    assert_eq!(rt; office.obtain(1), Err(ObtainError::RawFailed));
    assert_eq!(rt; office.obtain(2).map(row), Ok((4, 22, 40, 0)));
    assert_eq!(rt; office.obtain(1).map(row), Ok((5, 4, 5, 0)));
    let full = ObtainError::SpanFull {
        asked: 5,
        greatest: 1,
    };
    assert_eq!(rt; office.obtain(1), Err(full));
    Ok(())
}

#[test]
fn a_refused_region_is_gone(rt: HostRuntime) -> Result<(), Fail> {
    let mut office = office(rt.alloc(), POLICY, limits(16, 8192), &[], &[false])?;
    assert_eq!(rt; office.obtain(1).map(row), Ok((0, 0, 3, 0)));
    assert_eq!(rt; give(&mut office, 0), Some(false));
    assert_eq!(rt; office.regions().len(), 0);
    assert_eq!(rt; give(&mut office, 0), None);
    assert_eq!(rt; office.obtain(1).map(row), Ok((1, 0, 3, 0)));
    let _ = office.end();
    Ok(())
}

#[test]
fn a_region_may_have_no_granule(rt: HostRuntime) -> Result<(), Fail> {
    let gets = [region(1048577, 8192)];
    let mut office = office(rt.alloc(), FIXED, limits(16, 8192), &gets, &[])?;
    assert_eq!(rt; office.obtain(1).map(row), Ok((0, 1, 0, 8191)));
    Ok(())
}
