//! Turns that wait, for each cause, with what they name. A seat is stopped in the middle of its call; another comes to
//! where it has to wait, and its next turn tries the same step again, or begins anew. Once the first has gone on, so does
//! the other.

use super::bench::{Act, Came, LIMITS, POLICY, place_at, pool_of, turn_got};
use pool_types::{Answer, Awaited, Limits, Policy, Request, Row, Turn};
use std::test::Fail;

const MALLOC_8: Request = Request::Malloc { size: 8 };

const MALLOC_8128: Request = Request::Malloc { size: 8128 };

const MALLOC_9000: Request = Request::Malloc { size: 9000 };

fn waits(awaited: Awaited) -> Came {
    Came::Turn(Turn::Waits(awaited))
}

fn done(answer: Answer) -> Came {
    Came::Turn(Turn::Done(answer))
}

/// Of the region's 128 granules a slab has two, so the free block is in the bin of 126.
#[test]
fn a_scan_waits_for_the_lock_of_a_bin(rt: HostRuntime) -> Result<(), Fail> {
    let policy = Policy {
        fixed: true,
        ..POLICY
    };
    let limits = Limits {
        region: 1048576,
        ..LIMITS
    };
    let script = [
        (Act::Call(0, MALLOC_8), turn_got(16376, 8, 0, 1)),
        (Act::Begin(0, MALLOC_9000), Came::Done),
        (Act::RunTo(0, Row::B1), Came::Done),
        (Act::Begin(1, MALLOC_9000), Came::Done),
        (Act::Run(1), waits(Awaited::BinLock(125))),
        (Act::Turn(1), waits(Awaited::BinLock(125))),
        (Act::Made, Came::Made(None)),
        (Act::Run(0), turn_got(16448, 16320, 0, 2)),
        (Act::Turn(1), Came::Turn(Turn::Stepped)),
        (Act::Made, Came::Made(Some(Row::B1))),
        (Act::Run(1), turn_got(32832, 16320, 1, 1)),
    ];
    pool_of(rt.alloc(), policy, limits)?.goes(&rt, &script)
}

#[test]
fn a_get_waits_for_the_lock_of_a_cache_bin(rt: HostRuntime) -> Result<(), Fail> {
    let script = [
        (Act::Begin(0, MALLOC_9000), Came::Done),
        (Act::RunTo(0, Row::C1), Came::Done),
        (Act::Begin(1, MALLOC_9000), Came::Done),
        (Act::Run(1), waits(Awaited::CacheLock(2))),
        (Act::Turn(1), waits(Awaited::CacheLock(2))),
        (Act::Made, Came::Made(None)),
        (Act::Run(0), turn_got(64, 16320, 0, 1)),
        (Act::Turn(1), Came::Turn(Turn::Stepped)),
        (Act::Made, Came::Made(Some(Row::C1))),
        (Act::Run(1), turn_got(16448, 16320, 1, 1)),
    ];
    pool_of(rt.alloc(), POLICY, LIMITS)?.goes(&rt, &script)
}

/// The second seat obtains a region of its own, since it is past its scans.
#[test]
fn an_asking_waits_for_the_office(rt: HostRuntime) -> Result<(), Fail> {
    let script = [
        (Act::Begin(0, MALLOC_8), Came::Done),
        (Act::RunTo(0, Row::F1), Came::Done),
        (Act::Begin(1, MALLOC_8), Came::Done),
        (Act::Run(1), waits(Awaited::Office)),
        (Act::Turn(1), waits(Awaited::Office)),
        (Act::Made, Came::Made(None)),
        (Act::Run(0), turn_got(16376, 8, 0, 1)),
        (Act::Turn(1), Came::Turn(Turn::Stepped)),
        (Act::Made, Came::Made(Some(Row::F1))),
    ];
    pool_of(rt.alloc(), POLICY, LIMITS)?.goes(&rt, &script)
}

/// A large object lies before the slab, whose first granule is so the third one.
#[test]
fn an_exit_waits_for_mail(rt: HostRuntime) -> Result<(), Fail> {
    let place = Some(place_at(24640));
    let script = [
        (Act::Call(0, MALLOC_9000), turn_got(64, 16320, 0, 1)),
        (Act::Call(0, MALLOC_8128), turn_got(24640, 8128, 0, 2)),
        (Act::Call(0, MALLOC_8128), turn_got(16512, 8128, 0, 3)),
        (Act::Begin(1, Request::Free { place }), Came::Done),
        (Act::RunTo(1, Row::P3), Came::Done),
        (Act::Begin(0, Request::Exit), Came::Done),
        (Act::Run(0), waits(Awaited::Mail(2))),
        (Act::Turn(0), waits(Awaited::Mail(2))),
        (Act::Made, Came::Made(Some(Row::N5))),
        (Act::Run(1), done(Answer::Freed)),
        (Act::Run(0), done(Answer::Exited)),
    ];
    pool_of(rt.alloc(), POLICY, LIMITS)?.goes(&rt, &script)
}

/// The block behind a slab that is put is half won, and it alone would fit. Both are a whole region then, which goes
/// back, and another comes.
#[test]
fn a_scan_waits_for_a_block_that_is_half_won(rt: HostRuntime) -> Result<(), Fail> {
    let limits = Limits {
        region: 32768,
        ..LIMITS
    };
    let place = Some(place_at(16376));
    let script = [
        (Act::Call(0, MALLOC_8), turn_got(16376, 8, 0, 1)),
        (Act::Call(0, Request::Free { place }), done(Answer::Freed)),
        (Act::Begin(0, Request::Exit), Came::Done),
        (Act::RunTo(0, Row::G1), Came::Done),
        (Act::Begin(1, MALLOC_9000), Came::Done),
        (Act::Run(1), waits(Awaited::Half(1))),
        (Act::Made, Came::Made(Some(Row::B3))),
        (Act::Turn(1), Came::Turn(Turn::Stepped)),
        (Act::Made, Came::Made(Some(Row::B3))),
        (Act::Run(0), done(Answer::Exited)),
        (Act::RunTo(1, Row::F8), Came::Done),
    ];
    pool_of(rt.alloc(), POLICY, limits)?.goes(&rt, &script)
}
