//! That a pool's words and office are made, and that a region comes once and goes once.

use crate::Depot;
use pool_types::{Limits, Policy, Region, ScriptedRaw};
use pool_words::{Action, OfficeJob, Seen, Word};
use std::alloc::Global;
use std::test::Fail;

const POLICY: Policy = Policy {
    gets: true,
    frees: true,
    version: 1,
    granularity: 0,
    fixed: false,
    keep: false,
    reserved: 0,
};

const LIMITS: Limits = Limits {
    pool: 0,
    seats: 2,
    span: 16,
    region: 8192,
};

const OBTAIN: Action = Action::TakeOffice(OfficeJob::Obtain { granules: 2 });

/// Over a callback that gives one region of five granules.
fn depot(alloc: Global) -> Result<Depot<ScriptedRaw>, Fail> {
    let region = Region {
        base: 1048576,
        bytes: 40960,
    };
    let gets = Vec::from_slice(alloc, &[Some(region)])?;
    let raw = ScriptedRaw::of(gets, Vec::from_slice(alloc, &[])?);
    Depot::make(alloc, POLICY, LIMITS, raw).map_err(|_| Fail::from("a depot is refused"))
}

#[test]
fn a_word_is_changed_and_found(rt: HostRuntime) -> Result<(), Fail> {
    let mut depot = depot(rt.alloc())?;
    assert_eq!(rt; depot.step(Action::Load(Word::Queue), None).word(), 0);
    depot.step(Action::Store(Word::Queue, 7), None);
    assert_eq!(rt; depot.finds(Action::Load(Word::Queue)), 7);
    let lost = Action::Exchange {
        word: Word::Queue,
        from: 8,
        to: 9,
    };
    assert_eq!(rt; depot.step(lost, None).word(), 7);
    assert_eq!(rt; depot.step(Action::Swap(Word::Queue, 9), None).word(), 7);
    assert_eq!(rt; depot.step(Action::Load(Word::Queue), None).word(), 9);
    Ok(())
}

#[test]
fn a_region_comes_once_and_goes_with_a_step(rt: HostRuntime) -> Result<(), Fail> {
    let mut depot = depot(rt.alloc())?;
    assert!(rt; matches!(depot.step(OBTAIN, None), Seen::Obtained(_)));
    assert!(rt; matches!(depot.step(OBTAIN, None), Seen::OfficeOut));
    assert_eq!(rt; depot.regions().len(), 1);
    let first = depot.regions().first().map_or(0, |one| one.first);
    let store = Action::Store(Word::Region(0), 0);
    depot.step(store, None);
    assert_eq!(rt; depot.regions().len(), 1);
    depot.step(store, Some(first));
    assert_eq!(rt; depot.regions().len(), 0);
    depot.step(Action::GiveOffice, None);
    assert!(rt; !matches!(depot.step(OBTAIN, None), Seen::OfficeOut));
    Ok(())
}
