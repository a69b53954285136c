//! Resets and ends of a pool, what it answers out of turn, and what its making refuses. Expected numbers follow from
//! the sizes of slabs, objects and blocks.

use super::bench::{
    Act, Came, LIMITS, MOST_TURNS, POLICY, Pool, place_at, pool_of, raw_of, turn_got,
};
use part_model::Totals;
use pool_types::{
    Answer, CreateError, Grant, Leak, Limits, Policy, Raw, Region, RegionRec, Request, Row, Turn,
    Which,
};
use std::alloc::Global;
use std::process::Abort;
use std::test::Fail;
use step_core::PlainMachine;

/// Three seats.
const THREE_SEATS: Limits = Limits { seats: 3, ..LIMITS };

/// The first region that a callback without a script gives.
const FIRST_REGION: RegionRec = RegionRec {
    number: 0,
    first: 0,
    granules: 8,
    waste: 0,
    region: Region {
        base: 1048576,
        bytes: 65536,
    },
};

/// The totals of one region whose granules are all free.
const ALL_FREE: Totals = Totals {
    regions: 1,
    bytes: 65536,
    waste: 0,
    head: 0,
    rest: 0,
    private: 0,
    public: 0,
    object: 0,
    large_head: 0,
    slab_cache: 0,
    cached: 0,
    bin: 65536,
    queue: 0,
    hand: 0,
};

const MALLOC_8: Request = Request::Malloc { size: 8 };

const MALLOC_100: Request = Request::Malloc { size: 100 };

const MALLOC_1000: Request = Request::Malloc { size: 1000 };

const MALLOC_9000: Request = Request::Malloc { size: 9000 };

/// A pool of three seats, in which objects are held, freed by a stranger, cached, and left by a seat that has gone.
fn used_pool(rt: &impl Abort, alloc: Global) -> Result<Pool, Fail> {
    let small = Some(place_at(16272));
    let large = Some(place_at(16448));
    let freed = Came::Turn(Turn::Done(Answer::Freed));
    let exited = Came::Turn(Turn::Done(Answer::Exited));
    let script = [
        (Act::Call(0, MALLOC_100), turn_got(16272, 112, 0, 1)),
        (Act::Call(0, MALLOC_9000), turn_got(16448, 16320, 0, 2)),
        (Act::Call(0, MALLOC_100), turn_got(16160, 112, 0, 3)),
        (Act::Call(1, Request::Free { place: small }), freed),
        (Act::Call(1, Request::Free { place: large }), freed),
        (Act::Call(0, Request::Exit), exited),
        (Act::Call(2, MALLOC_1000), turn_got(48128, 1024, 2, 1)),
    ];
    let mut pool = pool_of(alloc, POLICY, THREE_SEATS)?;
    pool.goes(rt, &script)?;
    Ok(pool)
}

/// Nothing is held, and each region is one free block.
fn assert_fresh(rt: &impl Abort, pool: &Pool) -> Result<(), Fail> {
    assert_eq!(rt; pool.machine.totals(), ALL_FREE);
    assert_eq!(rt; pool.machine.leaks(pool.alloc)?.len(), 0);
    let bin = pool.machine.cache(2);
    assert_eq!(rt; bin.used, 0);
    assert_eq!(rt; bin.get, 0);
    assert_eq!(rt; bin.ages.len(), 0);
    Ok(())
}

#[test]
fn a_reset_is_refused_for_the_lowest_seat_in_a_call(rt: HostRuntime) -> Result<(), Fail> {
    let mut pool = used_pool(&rt, rt.alloc())?;
    let script = [
        (Act::Begin(2, MALLOC_1000), Came::Done),
        (Act::Begin(1, MALLOC_8), Came::Done),
        (Act::Reset, Came::InCall(1)),
        (Act::BeginReset, Came::InCall(1)),
        (Act::Run(1), turn_got(65528, 8, 1, 1)),
        (Act::Reset, Came::InCall(2)),
        (Act::Run(2), turn_got(47104, 1024, 2, 2)),
        (Act::Reset, Came::Done),
    ];
    pool.goes(&rt, &script)?;
    assert_fresh(&rt, &pool)?;
    pool.goes(
        &rt,
        &[(Act::Call(0, MALLOC_100), turn_got(16272, 112, 0, 4))],
    )
}

#[test]
fn no_call_begins_amid_a_reset(rt: HostRuntime) -> Result<(), Fail> {
    let mut pool = used_pool(&rt, rt.alloc())?;
    let script = [
        (Act::BeginReset, Came::Done),
        (Act::ResetTurn, Came::NotDone),
        (Act::Begin(1, Request::Exit), Came::InCall(1)),
        (Act::Turn(0), Came::Turn(Turn::Idle)),
    ];
    pool.goes(&rt, &script)?;
    for _ in 0..MOST_TURNS {
        if pool.machine.reset_turn(rt.alloc())? {
            assert_fresh(&rt, &pool)?;
            return pool.goes(&rt, &[(Act::Begin(1, Request::Exit), Came::Done)]);
        }
    }
    Err(Fail::from("a reset has no end"))
}

/// What an end returned, refused and kept.
fn assert_ended(
    rt: &impl Abort,
    pool: Pool,
    returned: &[RegionRec],
    kept: &[RegionRec],
) -> Result<(), Fail> {
    let Ok(destroyed) = pool.end() else {
        return Err(Fail::from("a pool does not end"));
    };
    assert_eq!(rt; destroyed.returned.as_slice(), returned);
    assert_eq!(rt; destroyed.kept.as_slice(), kept);
    assert_eq!(rt; destroyed.refused.len(), 0);
    Ok(())
}

/// The pool comes back with its call, which can be brought to its end.
#[test]
fn a_pool_ends_when_its_calls_have_ended(rt: HostRuntime) -> Result<(), Fail> {
    let mut pool = used_pool(&rt, rt.alloc())?;
    let begins = [
        (Act::Begin(2, MALLOC_1000), Came::Done),
        (Act::Turn(2), Came::Turn(Turn::Stepped)),
    ];
    pool.goes(&rt, &begins)?;
    let Err(mut pool) = pool.end() else {
        return Err(Fail::from("a pool ends amid a call"));
    };
    pool.goes(&rt, &[(Act::Run(2), turn_got(47104, 1024, 2, 2))])?;
    assert_ended(&rt, pool, &[FIRST_REGION], &[])
}

#[test]
fn a_pool_ends_amid_a_reset(rt: HostRuntime) -> Result<(), Fail> {
    let mut pool = used_pool(&rt, rt.alloc())?;
    let script = [
        (Act::BeginReset, Came::Done),
        (Act::ResetTurn, Came::NotDone),
    ];
    pool.goes(&rt, &script)?;
    assert_ended(&rt, pool, &[FIRST_REGION], &[])
}

#[test]
fn a_region_is_kept_that_no_callback_takes(rt: HostRuntime) -> Result<(), Fail> {
    let policy = Policy {
        frees: false,
        fixed: true,
        ..POLICY
    };
    let mut pool = pool_of(rt.alloc(), policy, LIMITS)?;
    pool.goes(&rt, &[(Act::Call(0, MALLOC_8), turn_got(16376, 8, 0, 1))])?;
    assert_ended(&rt, pool, &[], &[FIRST_REGION])
}

/// Of two reasons the first is told.
#[test]
fn a_making_is_refused_for_its_first_reason(rt: HostRuntime) -> Result<(), Fail> {
    let alloc = rt.alloc();
    let no_callback = Policy {
        gets: false,
        ..POLICY
    };
    let late = Policy {
        version: 2,
        ..POLICY
    };
    let no_seat = Limits { seats: 0, ..LIMITS };
    let small_region = Limits {
        region: 8191,
        span: 1025,
        ..LIMITS
    };
    let small_span = Limits { span: 9, ..LIMITS };
    let cases = [
        (no_callback, no_seat, CreateError::InvalidPolicy),
        (late, no_seat, CreateError::UnsupportedPolicy),
        (POLICY, no_seat, CreateError::BadLimits(Which::Seats)),
        (POLICY, small_region, CreateError::BadLimits(Which::Region)),
        (POLICY, small_span, CreateError::BadLimits(Which::Span)),
    ];
    for (policy, limits, want) in cases {
        match PlainMachine::make(alloc, policy, limits, raw_of(alloc, &[])?) {
            Ok(_) => return Err(Fail::from("a pool is made")),
            Err(error) => assert_eq!(rt; error, want),
        }
    }
    Ok(())
}

/// The callback still gives the first region of its script.
#[test]
fn a_making_asks_its_callback_for_nothing(rt: HostRuntime) -> Result<(), Fail> {
    let alloc = rt.alloc();
    let region = Region {
        base: 40960,
        bytes: 65536,
    };
    let raw = raw_of(alloc, &[Some(region)])?;
    let Ok(machine) = PlainMachine::make(alloc, POLICY, LIMITS, raw) else {
        return Err(Fail::from("a pool is refused"));
    };
    assert_eq!(rt; machine.made(), None);
    assert_eq!(rt; machine.totals(), Totals::default());
    let Ok((destroyed, mut raw)) = machine.destroy() else {
        return Err(Fail::from("a pool does not end"));
    };
    assert_eq!(rt; destroyed.returned.len(), 0);
    assert_eq!(rt; raw.get(65536), Some(region));
    Ok(())
}

#[test]
fn a_seat_has_one_call_at_a_time(rt: HostRuntime) -> Result<(), Fail> {
    let script = [
        (Act::Turn(1), Came::Turn(Turn::Idle)),
        (Act::Begin(1, MALLOC_8), Came::Done),
        (Act::Begin(1, Request::Exit), Came::InCall(1)),
        (Act::Begin(2, Request::Exit), Came::InCall(2)),
        (Act::Turn(2), Came::Turn(Turn::Idle)),
        (Act::Made, Came::Made(None)),
        (Act::Turn(1), Came::Turn(Turn::Stepped)),
        (Act::Made, Came::Made(Some(Row::N5))),
        (Act::Run(1), turn_got(16376, 8, 1, 1)),
        (Act::Turn(1), Came::Turn(Turn::Idle)),
        (Act::Made, Came::Made(None)),
    ];
    pool_of(rt.alloc(), POLICY, LIMITS)?.goes(&rt, &script)
}

/// Each seat counts its own objects, and has slabs of its own.
#[test]
fn seats_get_objects_of_their_own(rt: HostRuntime) -> Result<(), Fail> {
    let mut pool = pool_of(rt.alloc(), POLICY, LIMITS)?;
    let script = [
        (Act::Call(0, MALLOC_100), turn_got(16272, 112, 0, 1)),
        (Act::Call(1, MALLOC_100), turn_got(32656, 112, 1, 1)),
    ];
    pool.goes(&rt, &script)?;
    let leak = |offset, seat| Leak {
        place: place_at(offset),
        usable: 112,
        grant: Grant { seat, number: 1 },
    };
    let held = pool.machine.leaks(rt.alloc())?;
    assert_eq!(rt;
        held.as_slice(),
        [leak(16272, 0), leak(32656, 1)].as_slice()
    );
    Ok(())
}

/// While no other seat steps, no turn waits.
#[test]
fn one_seat_alone_never_waits(rt: HostRuntime) -> Result<(), Fail> {
    let small = Some(place_at(16272));
    let large = Some(place_at(16448));
    let freed = Came::Turn(Turn::Done(Answer::Freed));
    let script = [
        (Act::Call(0, MALLOC_100), turn_got(16272, 112, 0, 1)),
        (Act::Call(0, Request::Free { place: small }), freed),
        (
            Act::Call(0, Request::Malloc { size: 20000 }),
            turn_got(16448, 24512, 0, 2),
        ),
        (Act::Call(0, Request::Free { place: large }), freed),
        (
            Act::Call(0, Request::Exit),
            Came::Turn(Turn::Done(Answer::Exited)),
        ),
    ];
    pool_of(rt.alloc(), POLICY, LIMITS)?.goes(&rt, &script)
}
